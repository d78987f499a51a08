//! The variables of the goals of a pair.

ghost use Rattle.heyvl_acts.specs.PlainActs.{variable_of};
ghost use Rattle.lower_goals.specs.OmegaGoals.{goal_variables};
ghost use Rattle.lower_goals.specs.LentOmegaPairs.{IsReady, first, head, second};
ghost use Rattle.std.specs.Prelude.{IfOk, map, ◌≡◌};

use crate::pairs::Pair;
use heyvl_acts::VarInfo;
use made_goals::{copied, copy_of};
use std::alloc::{AllocError, Global};

/// Returns the variables of the goals: the first procedure's, then the number of iterations, which
/// is the second one's last input.
pub(crate) fn goal_variables<'a>(alloc: Global, pair: &Pair<'a>) -> Result<Vec<VarInfo>, AllocError>
    requires ready { IsReady pair.now }
    ensures { IfOk result (λ vars. map variable_of vars.items
        ≡ goal_variables (first pair.now) (head pair.now) (second pair.now)) }
{
    let mut vars = copied(alloc, &pair.procedure.vars)?;
    vars.push(copy_of(alloc, &pair.other.vars[pair.one.scope.len()])?)?;
    Ok(vars)
}
