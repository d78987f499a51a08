//! The end of a path of a goal.

ghost use Rattle.std.specs.Prelude.{IfOk};
ghost use Rattle.heylo_formula.specs.Goals.{goal_of};
ghost use Rattle.linear_form.specs.Paths.{IsPath, end_at};
ghost use Rattle.linear_form.specs.PlainPaths.{path_of};
ghost use Rattle.linear_form.specs.AskAnswers.{Answers};

use crate::continuations::{begin, go_on};
use crate::paths::Taken;
use crate::places::Reached;
use crate::questions::Ask;
use heylo_formula::Goal;
use std::alloc::{AllocError, Global};

/// Returns what is at the end of `path`: the next comparison, the values of both forms, or `Bits`.
///
/// If the path has splits after its last comparison, the values are those before the splits. In a
/// goal without a nonlinear product, `Bits` is returned exactly if a number of a value that is
/// evaluated on this path, or of a difference that is compared, reaches 2^62.
pub fn ask(alloc: Global, goal: &Goal, path: &[Taken]) -> Result<Ask, AllocError>
    requires { IsPath (goal_of goal.now) (path_of path.now) }
    ensures { IfOk result (λ a. Answers a (end_at (goal_of goal.now) (path_of path.now))) }
{
    let place = begin(alloc, goal)?;
    let reached = go_on(alloc, goal, &place, path)?;
    let Reached { ask, place: _ } = reached;
    Ok(ask)
}
