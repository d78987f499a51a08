//! The steps of acts that contain no other acts.

ghost use Rattle.std.specs.Prelude.{◌≡◌, IfOk, is_some, true};
ghost use Rattle.heylo_formula.specs.PlainTrees.{form_of, term_of};
ghost use Rattle.heylo_formula.specs.Choices.{Choices};
ghost use Rattle.heylo_formula.specs.Meaning.{term_value, value};
ghost use Rattle.heylo_formula.specs.State.{environment};
ghost use Rattle.heyvl_num.specs.ExactValues.{exact_sumᵛ};
ghost use Rattle.heyvl_num.specs.ExtendedNumbers.{value_of as number_of};
ghost use Rattle.heyvl_acts.specs.PlainActs.{parts_of};
ghost use Rattle.quant_algebra.specs.ExactMeaning.{exact_value};
ghost use Rattle.quant_algebra.specs.ExactOperators.{and_then};
ghost use Rattle.run_machine.specs.BoundedStep.{exact_term, parts_fit};
ghost use Rattle.run_machine.specs.Names.{stored};
ghost use Rattle.run_machine.specs.Replies.{reply_of, replied, surely};
ghost use Rattle.run_machine.specs.StoredMoves.{assigned, behind, collected, going};
ghost use Rattle.run_machine.specs.StoredMoves.{stored_branches};

use crate::configurations::{Config, Stepped};
use crate::copies::without_first;
use crate::evaluation::{assign, term_at};
use crate::limits::{for_sure, limited};
use heylo_formula::{Form, Term, Val};
use heyvl_num::Frac;
use quant_algebra::{At, value_at};
use std::alloc::{AllocError, Global};

/// Takes the step that skips the first item.
pub(crate) fn pass_step(alloc: Global, config: &Config) -> Result<Stepped, AllocError>
    ensures { IfOk result (λ stepped. reply_of stepped
        ≡ replied true
        (surely (going (stored config.now) (behind (stored config.now)) config.now.state.items))) }
{
    let next = without_first(alloc, config)?;
    for_sure(alloc, next)
}

/// Takes the step of an assignment.
pub(crate) fn set_step(
    alloc: Global,
    config: &Config,
    x: u32,
    term: &Term,
) -> Result<Stepped, AllocError>
    ensures { IfOk result (λ stepped. reply_of stepped
        ≡ replied (is_some (exact_term (term_of term.now) config.now.state.items))
        (surely (assigned (stored config.now) x
        (term_value (term_of term.now) (environment config.now.state.items))))) }
{
    match term_at(term, &config.state) {
        None => Ok(Stepped::Bits),
        Some(value) => {
            let next = with_value(alloc, config, x, value)?;
            for_sure(alloc, next)
        }
    }
}

/// Returns `config` without its first item, in which the variable `x` has the value.
pub(crate) fn with_value(
    alloc: Global,
    config: &Config,
    x: u32,
    value: Val,
) -> Result<Config, AllocError>
    ensures { IfOk result (λ next. stored next ≡ assigned (stored config.now) x value) }
{
    let mut next = without_first(alloc, config)?;
    assign(&mut next.state, x, value);
    Ok(next)
}

/// Takes the step of a draw. It has one outcome for each part, in order, also where the weight is
/// 0.
pub(crate) fn draw_step(
    alloc: Global,
    config: &Config,
    x: u32,
    parts: &[(Frac, Term)],
) -> Result<Stepped, AllocError>
    ensures { IfOk result (λ stepped. reply_of stepped
        ≡ replied (parts_fit (parts_of parts.now) config.now.state.items)
        (stored_branches (stored config.now) x (parts_of parts.now))) }
{
    let mut outcomes = Vec::new(alloc);
    for part in parts {
        match term_at(&part.1, &config.state) {
            None => return Ok(Stepped::Bits),
            Some(value) => {
                let next = with_value(alloc, config, x, value)?;
                outcomes.push((part.0, next))?;
            }
        }
    }
    Ok(limited(outcomes))
}

/// Takes the step of a reward.
pub(crate) fn reward_step(
    alloc: Global,
    config: &Config,
    form: &Form,
) -> Result<Stepped, AllocError>
    ensures { IfOk result (λ stepped. reply_of stepped
        ≡ replied (is_some
        (and_then (exact_value (form_of form.now) config.now.state.items)
        (λ v. exact_sumᵛ (number_of config.now.reward) v)))
        (surely (collected (stored config.now)
        (value (form_of form.now) (environment config.now.state.items) Choices.stop)))) }
{
    let collected = match value_at(form, &config.state) {
        At::Bits => return Ok(Stepped::Bits),
        At::Value(value) => value,
    };
    match config.reward.add(&collected) {
        None => Ok(Stepped::Bits),
        Some(reward) => {
            let mut next = without_first(alloc, config)?;
            next.reward = reward;
            for_sure(alloc, next)
        }
    }
}
