//! Weighted sums of values of runs.

ghost use Rattle.std.specs.Prelude.{◌≡◌, ◌∷◌, [], Some, option_map};
ghost use Rattle.heyvl_num.specs.ExtendedNumbers.{value_of};
ghost use Rattle.heyvl_acts.specs.Acts.{procedure_at};
ghost use Rattle.heyvl_acts.specs.PlainActs.{procedures_of};
ghost use Rattle.quant_algebra.specs.ExactMeaning.{exact_value};
ghost use Rattle.run_machine.specs.Replies.{stored_outcome, stored_outcomes};
ghost use Rattle.run_unroller.specs.Totals.{added, and_one, ended, post_of, post_total};
ghost use Rattle.run_unroller.specs.Totals.{reward_total};

use heylo_formula::Val;
use heyvl_acts::Typed;
use heyvl_num::{Ext, Frac};
use quant_algebra::{At, value_at};
use run_machine::Config;

/// Returns the weighted sum of the post over the terminated runs, or `None` if a number overflows.
pub(crate) fn post_sum(typed: &Typed, p: u32, runs: &[(Frac, Config)]) -> Option<Ext>
    ensures { option_map value_of result
        ≡ post_total (procedure_at (procedures_of typed.now) p).post (stored_outcomes runs.now) }
{
    let mut sum = Ext::Fin(Frac::zero());
    for run in runs {
        sum = and_post(typed, p, &sum, run)?;
    }
    Some(sum)
}

/// Returns `sum` plus the weighted post of one more run, if this run has terminated.
fn and_post(typed: &Typed, p: u32, sum: &Ext, run: &(Frac, Config)) -> Option<Ext>
    ensures { option_map value_of result
        ≡ added (post_of (procedure_at (procedures_of typed.now) p).post) (Some (value_of sum.now))
        (ended (stored_outcome run.now ∷ [])) }
{
    if !run.1.items.is_empty() {
        return Some(*sum);
    }
    let post = post_at(typed, p, &run.1.state)?;
    and_value(sum, &run.0, &post)
}

/// Returns the post of the procedure `p` in a state, or 0 if there is no such procedure.
fn post_at(typed: &Typed, p: u32, state: &[Val]) -> Option<Ext>
    ensures { option_map value_of result
        ≡ exact_value (procedure_at (procedures_of typed.now) p).post state.now }
{
    match typed.procs.get(p as usize) {
        None => Some(Ext::Fin(Frac::zero())),
        Some(procedure) => match value_at(&procedure.post, state) {
            At::Value(value) => Some(value),
            At::Bits => None,
        },
    }
}

/// Returns the weighted sum of the rewards over all runs, or `None` if a number overflows.
pub(crate) fn reward_sum(runs: &[(Frac, Config)]) -> Option<Ext>
    ensures { option_map value_of result ≡ reward_total (stored_outcomes runs.now) }
{
    let mut sum = Ext::Fin(Frac::zero());
    for run in runs {
        sum = and_value(&sum, &run.0, &run.1.reward)?;
    }
    Some(sum)
}

/// Returns `sum` plus `weight` times `value`.
fn and_value(sum: &Ext, weight: &Frac, value: &Ext) -> Option<Ext>
    ensures { option_map value_of result
        ≡ and_one (Some (value_of sum.now)) weight.now (Some (value_of value.now)) }
{
    let product = Ext::Fin(*weight).mul(value)?;
    sum.add(&product)
}
