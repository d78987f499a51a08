//! Formulas without binders, over other variables by position.

ghost use Rattle.heylo_formula.specs.Binders.{has_binder};
ghost use Rattle.heylo_formula.specs.PlainTrees.{form_of};
ghost use Rattle.heylo_formula.specs.Variables.{IsOver};
ghost use Rattle.heyvl_acts.specs.Rules.{Each};
ghost use Rattle.lower_goals.specs.OmegaPairs.{by_position};
ghost use Rattle.std.specs.Prelude.{IfOk, false, length, ◌<◌, ◌≡◌, ◌≤◌};
ghost use Rattle.vp_generator.specs.PrenexedForms.{unbound};

use heylo_formula::Form;
use std::alloc::{AllocError, Global};

/// A number above those of a procedure's variables; variables are moved by it.
const AWAY: u32 = 1_000;

/// Returns the formula in which each variable is replaced by the one at its position in `places`.
/// All variables are first moved by `AWAY`, so that no replacement changes another one.
pub(crate) fn placed(alloc: Global, form: &Form, places: &[u32]) -> Result<Form, AllocError>
    requires plain { has_binder (form_of form.now) ≡ false }
    requires over { IsOver (length places.now) (form_of form.now) }
    requires few { length places.now ≤ 1000 }
    requires near { Each (λ x. x < 1000) places.now }
    ensures { IfOk result (λ made. form_of made
        ≡ unbound (by_position places.now) 0 (form_of form.now)) }
{
    let mut made = form.shifted(alloc, AWAY)?;
    for position in 0..places.len() {
        made = made.rename(alloc, AWAY + position as u32, places[position])?;
    }
    Ok(made)
}
