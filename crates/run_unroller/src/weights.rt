//! The mass not yet terminated.

ghost use Rattle.std.specs.Prelude.{◌≡◌, ◌∷◌, [], Some};
ghost use Rattle.run_machine.specs.Replies.{stored_outcome, stored_outcomes};
ghost use Rattle.run_unroller.specs.Totals.{added_weights, running, running_total};

use heyvl_num::Frac;
use run_machine::Config;

/// Returns the sum of the weights of the runs that have not terminated, or `None` if it overflows.
pub(crate) fn running_weight(runs: &[(Frac, Config)]) -> Option<Frac>
    ensures { result ≡ running_total (stored_outcomes runs.now) }
{
    let mut sum = Frac::zero();
    for run in runs {
        sum = and_weight(&sum, run)?;
    }
    Some(sum)
}

/// Returns `sum` plus the weight of one more run, if this run has not terminated.
fn and_weight(sum: &Frac, run: &(Frac, Config)) -> Option<Frac>
    ensures { result ≡ added_weights (Some sum.now) (running (stored_outcome run.now ∷ [])) }
{
    if run.1.items.is_empty() {
        return Some(*sum);
    }
    sum.add(&run.0)
}
