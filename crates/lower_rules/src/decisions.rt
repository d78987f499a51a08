//! Decisions of goals within limits.

ghost use Rattle.heylo_formula.specs.Formula.{Form as plain_form};
ghost use Rattle.heylo_formula.specs.Goals.{Goal as plain_goal};
ghost use Rattle.lower_rules.specs.LimitedDecisions.{IsDecidedWithin};
ghost use Rattle.lower_goals.specs.LimitedGoals.{IsMadeFor};
ghost use Rattle.lower_rules.specs.internal.Decidable.{CanDecide};
ghost use Rattle.region_split.specs.Meanings.{Tells};
ghost use Rattle.std.specs.Prelude.{IfOk, List};

use goal_answers::{Cause, Decision};
use heylo_formula::Made;
use region_split::decide;
use std::alloc::{AllocError, Global};

/// Returns the decision of the goal, or `Unknown` with the limit that one of its forms exceeds.
pub(crate) fn decided(alloc: Global, made: &Made) -> Result<Decision, AllocError>
    requires { CanDecide made.now }
    ensures decision { (g : plain_goal) (forms : List plain_form) → IsMadeFor g forms made.now
        → IfOk result (λ d. IsDecidedWithin g forms d) }
    ensures meaning { (g : plain_goal) (forms : List plain_form) → IsMadeFor g forms made.now
        → IfOk result (λ d. Tells g d) }
{
    match made {
        Made::Goal(goal) => decide(alloc, goal),
        Made::Depth => Ok(Decision::Unknown(Cause::Depth)),
        Made::Nodes => Ok(Decision::Unknown(Cause::Nodes)),
    }
}
