//! One step of a configuration.

ghost use Rattle.std.specs.Prelude.{◌≡◌, ◌∷◌, IfOk, drop};
ghost use Rattle.heyvl_acts.specs.Acts.{procedure_at, types_of};
ghost use Rattle.heyvl_acts.specs.PlainActs.{act_of, procedures_of};
ghost use Rattle.heyvl_acts.specs.Rules.{MeetsAllRules};
ghost use Rattle.run_machine.specs.ConfigConditions.{HasRoom, IsConfig};
ghost use Rattle.run_machine.specs.Names.{decision_of, stored};
ghost use Rattle.run_machine.specs.Step.{Decision};
ghost use Rattle.run_machine.specs.StepAnswers.{IsStep};
ghost use Rattle.run_machine.specs.declared.configurations.Item.TheVariants.{Back};
ghost use Rattle.run_machine.specs.internal.NextItems.{ComesNext, IsAt, ReturnsNext};

use crate::block_steps::{if_step, pick_step};
use crate::call_steps::{back_step, call_step};
use crate::choice_steps::any_step;
use crate::configurations::{Config, Decide, Item, Stepped};
use crate::loop_steps::test_step;
use crate::plain_steps::{draw_step, pass_step, reward_step, set_step};
use crate::tosses::toss_step;
use heylo_formula::Ty;
use heyvl_acts::{Act, Typed, act_at};
use std::alloc::{AllocError, Global};

/// Takes one step of `config` under a decision. Returns the next configurations with their
/// probabilities, in the order of the definition and also where the probability is 0; a terminated
/// configuration has none.
///
/// Returns `Bits` exactly if a number that the step needs overflows, otherwise `Deep` exactly if
/// the state and all frames of a next configuration have more than 512 values.
pub fn step(
    alloc: Global,
    typed: &Typed,
    config: &Config,
    decision: Option<&Decide>,
) -> Result<Stepped, AllocError>
    requires rules { MeetsAllRules typed.now }
    requires config { IsConfig (procedures_of typed.now) (stored config.now) }
    requires room { HasRoom (stored config.now) }
    ensures { IfOk result (λ stepped.
        IsStep (procedures_of typed.now) (stored config.now) (decision_of decision.entry) stepped) }
{
    match config.items.first() {
        None => Ok(Stepped::Next(Vec::new(alloc))),
        Some(Item::Do(p, place)) => do_step(alloc, typed, config, *p, *place, decision),
        Some(Item::Turn(p, place)) => do_step(alloc, typed, config, *p, *place, decision),
        Some(Item::Out(q, x)) => { any_step(alloc, config, *x, type_of(typed, *q, *x), decision) }
        Some(Item::Back(p, place)) => return_step(alloc, typed, config, *p, *place),
    }
}

/// Takes the step of the act, or of the loop's test, at `place`.
fn do_step(
    alloc: Global,
    typed: &Typed,
    config: &Config,
    p: u32,
    place: u32,
    decision: Option<&Decide>,
) -> Result<Stepped, AllocError>
    requires rules { MeetsAllRules typed.now }
    requires config { IsConfig (procedures_of typed.now) (stored config.now) }
    requires room { HasRoom (stored config.now) }
    requires first { IsAt p place config.now.items.items }
    ensures { IfOk result (λ stepped.
        IsStep (procedures_of typed.now) (stored config.now) (decision_of decision.entry) stepped) }
{
    match act_at(typed, p, place) {
        None => unreachable!(),
        Some(act) => act_step(alloc, typed, config, p, place, act, decision),
    }
}

/// Takes the step of `act`, which is at `place`.
fn act_step(
    alloc: Global,
    typed: &Typed,
    config: &Config,
    p: u32,
    place: u32,
    act: &Act,
    decision: Option<&Decide>,
) -> Result<Stepped, AllocError>
    requires rules { MeetsAllRules typed.now }
    requires room { HasRoom (stored config.now) }
    requires comes { ComesNext (procedures_of typed.now) (stored config.now) p place
        (act_of act.now) }
    ensures { IfOk result (λ stepped.
        IsStep (procedures_of typed.now) (stored config.now) (decision_of decision.entry) stepped) }
{
    match act {
        Act::Set(x, term, _) => set_step(alloc, config, *x, term),
        Act::Draw(x, parts, _) => draw_step(alloc, config, *x, parts),
        Act::Toss(x, form, _) => toss_step(alloc, config, *x, form),
        Act::Any(x, _, ty, _) => any_step(alloc, config, *x, *ty, decision),
        Act::Reward(form, _) => reward_step(alloc, config, form),
        Act::If(arms, other, _) => if_step(alloc, config, p, place + 1, arms, other),
        Act::Pick(_, left, right, _) => {
            pick_step(alloc, config, p, place + 1, left, right, decision)
        }
        Act::Check(..) => pass_step(alloc, config),
        Act::Validate(..) => pass_step(alloc, config),
        Act::Loop(one) => test_step(alloc, config, p, place, one),
        Act::Call(_, q, terms, _) => call_step(alloc, typed, config, p, place, *q, terms),
    }
}

/// Takes the step of the return to the call at `place`.
fn return_step(
    alloc: Global,
    typed: &Typed,
    config: &Config,
    p: u32,
    place: u32,
) -> Result<Stepped, AllocError>
    requires rules { MeetsAllRules typed.now }
    requires config { IsConfig (procedures_of typed.now) (stored config.now) }
    requires first { config.now.items.items ≡ Back p place ∷ drop 1 config.now.items.items }
    ensures { IfOk result (λ stepped. (d : Decision)
        → IsStep (procedures_of typed.now) (stored config.now) d stepped) }
{
    match act_at(typed, p, place) {
        None => unreachable!(),
        Some(act) => to_call(alloc, typed, config, act),
    }
}

/// Takes the step of the return to the call `act`.
fn to_call(alloc: Global, typed: &Typed, config: &Config, act: &Act) -> Result<Stepped, AllocError>
    requires rules { MeetsAllRules typed.now }
    requires returns { ReturnsNext (procedures_of typed.now) (stored config.now) (act_of act.now) }
    ensures { IfOk result (λ stepped. (d : Decision)
        → IsStep (procedures_of typed.now) (stored config.now) d stepped) }
{
    match act {
        Act::Call(targets, q, _, _) => back_step(alloc, typed, config, targets, *q),
        Act::Set(..) => unreachable!(),
        Act::Draw(..) => unreachable!(),
        Act::Toss(..) => unreachable!(),
        Act::Any(..) => unreachable!(),
        Act::Reward(..) => unreachable!(),
        Act::If(..) => unreachable!(),
        Act::Pick(..) => unreachable!(),
        Act::Check(..) => unreachable!(),
        Act::Validate(..) => unreachable!(),
        Act::Loop(..) => unreachable!(),
    }
}

/// Returns the type of the variable `x` of the procedure `q`; `Bool` if there is none.
fn type_of(typed: &Typed, q: u32, x: u32) -> Ty
    ensures { result ≡ types_of (procedure_at (procedures_of typed.now) q) x }
{
    match typed.procs.get(q as usize) {
        None => Ty::Bool,
        Some(procedure) => match procedure.vars.get(x as usize) {
            None => Ty::Bool,
            Some(variable) => variable.ty,
        },
    }
}
