//! Ends at which a goal holds trivially.

ghost use Rattle.std.specs.Prelude.{◌≡◌, is_none};
ghost use Rattle.linear_form.specs.PathRows.{denial};
ghost use Rattle.linear_values.specs.PlainValues.{linear_of};

use linear_values::Lin;

/// Returns whether a goal with the values `stated` and `found` holds trivially, because its larger
/// side is infinity. None is infinity; `upper` is the direction of the goal.
pub fn holds_plainly(upper: bool, stated: &Option<Lin>, found: &Option<Lin>) -> bool
    ensures { result ≡ is_none (denial upper (linear_of stated.now, linear_of found.now)) }
{
    if upper {
        stated.is_none()
    } else {
        found.is_none()
    }
}
