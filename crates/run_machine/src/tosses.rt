//! The step of a toss.

ghost use Rattle.std.specs.Prelude.{◌≡◌, [], ◌∷◌, IfOk, IfSome, option_map, true, false};
ghost use Rattle.heylo_formula.specs.Formula.{Cond as condition, Term as term};
ghost use Rattle.heylo_formula.specs.Operators.{finite_part};
ghost use Rattle.heylo_formula.specs.PlainTrees.{form_of};
ghost use Rattle.heylo_formula.specs.State.{environment};
ghost use Rattle.heyvl_acts.specs.Tosses.{toss_parts, toss_weight};
ghost use Rattle.heyvl_num.specs.ExtendedNumbers.{value_of};
ghost use Rattle.heyvl_num.specs.Value.{oneᵛ};
ghost use Rattle.heyvl_num.specs.ValueOperators.{minᵛ};
ghost use Rattle.quant_algebra.specs.ExactOperators.{exact_minᵛ};
ghost use Rattle.run_machine.specs.BoundedStep.{exact_weight, toss_fits};
ghost use Rattle.run_machine.specs.Names.{stored};
ghost use Rattle.run_machine.specs.Replies.{reply_of, replied};
ghost use Rattle.run_machine.specs.StoredMoves.{stored_branches};

use crate::configurations::{Config, Stepped};
use crate::evaluation::finite;
use crate::limits::limited;
use crate::plain_steps::with_value;
use heylo_formula::{Form, Val};
use heyvl_num::{Ext, Frac};
use quant_algebra::{At, value_at};
use std::alloc::{AllocError, Global};
use std::cmp::Ordering;

/// Takes the step of a toss. The variable becomes true with a weight of the formula's value or 1,
/// the smaller one, and false with the rest; both outcomes are there also if a weight is 0.
pub(crate) fn toss_step(
    alloc: Global,
    config: &Config,
    x: u32,
    form: &Form,
) -> Result<Stepped, AllocError>
    ensures { IfOk result (λ stepped. reply_of stepped
        ≡ replied (toss_fits (form_of form.now) config.now.state.items)
        (stored_branches (stored config.now) x
        (toss_parts (form_of form.now) (environment config.now.state.items)))) }
{
    match weight_at(form, &config.state) {
        None => Ok(Stepped::Bits),
        Some(weight) => match Frac::one().sub(&weight) {
            None => Ok(Stepped::Bits),
            Some(rest) => two_sides(alloc, config, x, weight, rest),
        },
    }
}

/// Returns the two outcomes: true with the weight `heads`, false with the weight `tails`.
fn two_sides(
    alloc: Global,
    config: &Config,
    x: u32,
    heads: Frac,
    tails: Frac,
) -> Result<Stepped, AllocError>
    ensures { IfOk result (λ stepped. reply_of stepped
        ≡ replied true
        (stored_branches (stored config.now) x
        ((heads, term.truth (condition.constant true))
        ∷ (tails, term.truth (condition.constant false)) ∷ []))) }
{
    let mut outcomes = Vec::new(alloc);
    outcomes.push((heads, with_value(alloc, config, x, Val::Truth(true))?))?;
    outcomes.push((tails, with_value(alloc, config, x, Val::Truth(false))?))?;
    Ok(limited(outcomes))
}

/// Returns the smaller of the formula's value and 1, or `None` if a number on the way overflows.
fn weight_at(form: &Form, state: &[Val]) -> Option<Frac>
    ensures exact { result ≡ exact_weight (form_of form.now) state.now }
    ensures meaning { IfSome result
        (λ w. w ≡ toss_weight (form_of form.now) (environment state.now)) }
{
    match value_at(form, state) {
        At::Value(value) => at_most_one(&value),
        At::Bits => None,
    }
}

/// Returns the smaller of the value and 1, or `None` if a cross product of the comparison
/// overflows.
fn at_most_one(value: &Ext) -> Option<Frac>
    ensures exact { result ≡ option_map finite_part (exact_minᵛ (value_of value.now) oneᵛ) }
    ensures meaning { IfSome result (λ w. w ≡ finite_part (minᵛ (value_of value.now) oneᵛ)) }
{
    match value.compare(&Ext::one())? {
        Ordering::Less => Some(finite(value)),
        Ordering::Equal => Some(finite(value)),
        Ordering::Greater => Some(Frac::one()),
    }
}
