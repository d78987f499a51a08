//! The goals of an omega pair.

ghost use Rattle.heylo_formula.specs.PlainTrees.{form_of};
ghost use Rattle.lower_goals.specs.declared.answers.Step.TheVariants.{Base, One, Turn};
ghost use Rattle.lower_goals.specs.internal.Pairs.{IsLimitBy, IsTurnOf};
ghost use Rattle.lower_goals.specs.LentOmegaPairs.{IsMadeStep, IsReady};
ghost use Rattle.std.specs.Prelude.{IfOk};

use crate::answers::Step;
use crate::pairs::Pair;
use crate::step_sides::{goal_with, guarded};
use heylo_formula::{Form, Made};
use heyvl_acts::Act;
use heyvl_num::Ext;
use std::alloc::{AllocError, Global};
use vp_generator::{VpStop, prenexed_form_means_choices, vp};

/// Returns the goal of a step, or a limit that one of its forms exceeds.
pub fn step_goal<'a>(alloc: Global, pair: &Pair<'a>, step: Step) -> Result<Made, AllocError>
    requires { IsReady pair.now }
    ensures { IfOk result (λ made. IsMadeStep pair.now step made) }
{
    match step {
        Step::One => one_goal(alloc, pair),
        Step::Base => base_goal(alloc, pair),
        Step::Turn => turn_goal(alloc, pair),
    }
}

/// Returns the goal that the formula is at most 1.
fn one_goal<'a>(alloc: Global, pair: &Pair<'a>) -> Result<Made, AllocError>
    requires ready { IsReady pair.now }
    ensures { IfOk result (λ made. IsMadeStep pair.now One made) }
{
    prenexed_form_means_choices();
    let none: Vec<Act> = Vec::new(alloc);
    match vp(alloc, &none, pair.formula.copy(alloc)?) {
        Ok(_) => goal_with(alloc, pair, Step::One, Form::Const(Ext::one())),
        Err(stop) => limit(stop),
    }
}

/// Returns the goal with no iteration left.
fn base_goal<'a>(alloc: Global, pair: &Pair<'a>) -> Result<Made, AllocError>
    requires ready { IsReady pair.now }
    ensures { IfOk result (λ made. IsMadeStep pair.now Base made) }
{
    match vp(alloc, pair.behind, pair.procedure.post.copy(alloc)?) {
        Ok(after) => {
            let nothing = Form::Const(Ext::zero());
            let stated = guarded(alloc, &pair.one.guard, nothing, after)?;
            goal_with(alloc, pair, Step::Base, stated)
        }
        Err(stop) => limit(stop),
    }
}

/// Returns the goal with one more iteration.
fn turn_goal<'a>(alloc: Global, pair: &Pair<'a>) -> Result<Made, AllocError>
    requires ready { IsReady pair.now }
    ensures { IfOk result (λ made. IsMadeStep pair.now Turn made) }
{
    prenexed_form_means_choices();
    match vp(alloc, &pair.one.body, pair.formula.copy(alloc)?) {
        Ok(turn) => with_turn(alloc, pair, turn),
        Err(stop) => limit(stop),
    }
}

/// Returns the goal with one more iteration, where `turn` is the pre-expectation of the formula
/// over the body.
fn with_turn<'a>(alloc: Global, pair: &Pair<'a>, turn: Form) -> Result<Made, AllocError>
    requires ready { IsReady pair.now }
    requires turn { IsTurnOf pair.now (form_of turn) }
    ensures { IfOk result (λ made. IsMadeStep pair.now Turn made) }
{
    match vp(alloc, pair.behind, pair.procedure.post.copy(alloc)?) {
        Ok(after) => {
            let stated = guarded(alloc, &pair.one.guard, turn, after)?;
            goal_with(alloc, pair, Step::Turn, stated)
        }
        Err(stop) => limit(stop),
    }
}

/// Returns the limit that a form exceeds.
fn limit(stop: VpStop) -> Result<Made, AllocError>
    ensures { IfOk result (λ made. IsLimitBy stop made) }
{
    match stop {
        VpStop::Depth => Ok(Made::Depth),
        VpStop::Nodes => Ok(Made::Nodes),
        VpStop::Memory(error) => Err(error),
    }
}
