//! The outcome of a goal by its decision.

ghost use Rattle.std.specs.Prelude.{IfOk};
ghost use Rattle.verify_core.specs.GoalDecisions.{IsDecisionOf};
ghost use Rattle.verify_core.specs.declared.settled_goals.Way.TheVariants.{Decide};
ghost use Rattle.verify_core.specs.internal.Decidable.{CanDecide};
ghost use Rattle.verify_core.specs.internal.SettledGoals.{IsSettled, TellsOf};

use crate::outcomes::Outcome;
use goal_answers::{Cause, Decision, GoalCert, NamedGoal};
use heylo_formula::Made;
use region_split::decide;
use std::alloc::{AllocError, Global};

/// Returns the outcome of a goal by its decision. Appends the certificate of a goal that is proved
/// with a tree.
pub(crate) fn by_decision(
    alloc: Global,
    goal: &NamedGoal,
    certs: &mut Vec<GoalCert>,
) -> Result<Outcome, AllocError>
    requires { CanDecide goal.now.made }
    ensures { IfOk result (λ outcome.
        IsSettled Decide goal.now outcome certs.old.items certs.new.items) }
{
    match decision_of(alloc, &goal.made)? {
        Decision::Proved(None) => Ok(Outcome::Proved),
        Decision::Proved(Some(tree)) => {
            certs.push(GoalCert {
                proc: goal.proc,
                id: goal.id,
                tree,
            })?;
            Ok(Outcome::Proved)
        }
        Decision::Falsified(point) => Ok(Outcome::Falsified(point)),
        Decision::Unknown(cause) => Ok(Outcome::Unknown(cause)),
    }
}

/// Returns the decision of a goal. If there is no goal, it is unknown for the limit that the form
/// passes.
fn decision_of(alloc: Global, made: &Made) -> Result<Decision, AllocError>
    requires { CanDecide made.now }
    ensures decision { IfOk result (λ d. IsDecisionOf made.now d) }
    ensures meaning { IfOk result (λ d. TellsOf made.now d) }
{
    match made {
        Made::Goal(goal) => decide(alloc, goal),
        Made::Depth => Ok(Decision::Unknown(Cause::Depth)),
        Made::Nodes => Ok(Decision::Unknown(Cause::Nodes)),
    }
}
