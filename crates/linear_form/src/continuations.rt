//! The start of an evaluation of a goal, and its continuation along a path.

ghost use Rattle.std.specs.Prelude.{[], IfOk};
ghost use Rattle.heylo_formula.specs.Goals.{goal_of};
ghost use Rattle.linear_form.specs.AskAnswers.{Answers};
ghost use Rattle.linear_form.specs.Paths.{IsPath, end_at};
ghost use Rattle.linear_form.specs.Places.{IsOn};
ghost use Rattle.linear_form.specs.PlainPaths.{path_of};

use crate::cursor::Stop;
use crate::paths::{Taken, copy_atom};
use crate::places::{Evaluation, Focus, Place, Reached};
use crate::questions::Ask;
use crate::ready_parts::goal_part;
use crate::steps::advance;
use heylo_formula::Goal;
use std::alloc::{AllocError, Global};

/// Returns the place before the first comparison. The stated bound is evaluated first, then the
/// computed form.
pub fn begin(alloc: Global, goal: &Goal) -> Result<Place, AllocError>
    ensures { IfOk result (λ p. IsOn (goal_of goal.now) [] p) }
{
    let focus = Focus::Part(goal_part(alloc, goal)?);
    let frames = Vec::new(alloc);
    let at = 0;
    let evaluation = Box::new(alloc, Evaluation { focus, frames, at })?;
    Ok(Place { evaluation })
}

/// Continues the evaluation from `place` to the end of `path`, and returns what is there: the next
/// comparison, the values of both forms, or an overflow.
pub fn go_on(
    alloc: Global,
    goal: &Goal,
    place: &Place,
    path: &[Taken],
) -> Result<Reached, AllocError>
    requires path { IsPath (goal_of goal.now) (path_of path.now) }
    requires on { IsOn (goal_of goal.now) (path_of path.now) place.now }
    ensures asked { IfOk result
        (λ r. Answers r.ask (end_at (goal_of goal.now) (path_of path.now))) }
    ensures on { IfOk result (λ r. IsOn (goal_of goal.now) (path_of path.now) r.place) }
{
    let evaluation = place.evaluation.clone()?;
    go_on_from(alloc, goal, Place { evaluation }, path)
}

/// Continues the evaluation as `go_on` does, but consumes `place`.
pub fn go_on_from(
    alloc: Global,
    goal: &Goal,
    place: Place,
    path: &[Taken],
) -> Result<Reached, AllocError>
    requires path { IsPath (goal_of goal.now) (path_of path.now) }
    requires on { IsOn (goal_of goal.now) (path_of path.now) place }
    ensures asked { IfOk result
        (λ r. Answers r.ask (end_at (goal_of goal.now) (path_of path.now))) }
    ensures on { IfOk result (λ r. IsOn (goal_of goal.now) (path_of path.now) r.place) }
{
    let Place { mut evaluation } = place;
    'steps: loop {
        let ask = match advance(alloc, &mut evaluation, path) {
            Ok(None) => continue,
            Ok(Some(ask)) => Box::into_inner(ask),
            Err(Stop::Decide(atom)) => Ask::Decide(copy_atom(alloc, &atom)?),
            Err(Stop::Bits) => Ask::Bits,
            Err(Stop::Memory(e)) => return Err(e),
        };
        let place = Place { evaluation };
        return Ok(Reached { ask, place });
    }
}
