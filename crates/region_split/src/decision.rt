//! The decision of a goal.

ghost use Rattle.std.specs.Prelude.{◌<◌, ◌^◌, length, IfOk};
ghost use Rattle.heylo_formula.specs.Goals.{goal_of};
ghost use Rattle.heylo_formula.specs.PlainTrees.{form_of};
ghost use Rattle.heylo_formula.specs.Sizes.{nodes};
ghost use Rattle.heylo_formula.specs.TypedGoals.{IsTypedGoal, HasItsVariables};
ghost use Rattle.region_split.specs.Decisions.{IsDecision};
ghost use Rattle.region_split.specs.Meanings.{Tells};

use crate::walk::walked;
use goal_answers::{Cause, Decision};
use heylo_formula::Goal;
use linear_form::{nonlinear, paths_are_short};
use std::alloc::{AllocError, Global};

/// Decides a goal: it is proved, falsified by a state, or unknown for a cause.
pub fn decide(alloc: Global, goal: &Goal) -> Result<Decision, AllocError>
    requires typed { IsTypedGoal (goal_of goal.now) }
    requires own_variables { HasItsVariables (goal_of goal.now) }
    requires stated_small { nodes (form_of goal.now.stated) < 2 ^ 29 }
    requires found_small { nodes (form_of goal.now.found) < 2 ^ 29 }
    requires few_variables { length goal.now.vars.items < 2 ^ 31 }
    ensures decision { IfOk result (λ d. IsDecision (goal_of goal.now) d) }
    ensures meaning { IfOk result (λ d. Tells (goal_of goal.now) d) }
{
    paths_are_short();
    match nonlinear(goal) {
        Some(span) => Ok(Decision::Unknown(Cause::Nonlinear(span))),
        None => walked(alloc, goal),
    }
}
