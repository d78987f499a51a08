//! The way down from a comparison.

ghost use Rattle.std.specs.Prelude.{◌≡◌, ◌+◌, IfOk, None};
ghost use Rattle.heylo_formula.specs.Goals.{goal_of};
ghost use Rattle.heylo_formula.specs.TypedGoals.{IsTypedGoal};
ghost use Rattle.linear_form.specs.Cells.{IsKeptPath};
ghost use Rattle.linear_form.specs.Nonlinear.{nonlinear_product};
ghost use Rattle.linear_form.specs.Places.{IsOn};
ghost use Rattle.linear_form.specs.PlainPaths.{path_of};
ghost use Rattle.region_split.specs.internal.Progress.{AreShort, IsStandingWalk, IsAsking, IsBelow};
ghost use Rattle.region_split.specs.internal.Progress.{IsStep, left_of};

use crate::front::end_of;
use crate::growth::leaf;
use crate::repeats::{Repeat, repeated};
use crate::trail::{Way, onward};
use crate::walk::{Step, Walk, end};
use goal_answers::{Cause, Decision, Tree};
use heylo_formula::Goal;
use linear_form::{Ask, Atom, Place, Reached, Taken, go_on_from};
use std::alloc::{AllocError, Global};

/// Takes the branch in which `atom` holds; `place` is the evaluation that asks `atom`. If the path
/// has answered `atom` before, only the branch with this answer is walked.
pub fn deeper(
    alloc: Global,
    goal: &Goal,
    walk: &mut Walk,
    atom: Atom,
    place: Place,
) -> Result<Step, AllocError>
    requires typed { IsTypedGoal (goal_of goal.now) }
    requires short { AreShort (goal_of goal.now) }
    requires linear { nonlinear_product (goal_of goal.now) ≡ None }
    requires asking { IsAsking (goal_of goal.now) walk.old atom place }
    ensures { IfOk result (λ s.
        IsStep (goal_of goal.now) (path_of walk.old.trail.path.items) walk.new s) }
{
    match repeated(alloc, goal, &mut walk.trail, atom, &place)? {
        Repeat::New(question) => {
            let answer = Taken {
                atom: question,
                held: true,
            };
            onward(&mut walk.trail, answer, Way::Open(place))?;
            Ok(Step::On)
        }
        Repeat::Yes => past(alloc, goal, walk, place),
        Repeat::No(multipliers) => {
            let tree = leaf(Tree::Farkas(multipliers), walk.trail.path.len());
            walk.trees.push(tree)?;
            past(alloc, goal, walk, place)
        }
        Repeat::Unknown(cause) => Ok(Step::Done(Decision::Unknown(cause))),
    }
}

/// Continues after a path with solvable rows; `place` is an evaluation on this path.
fn past(alloc: Global, goal: &Goal, walk: &mut Walk, place: Place) -> Result<Step, AllocError>
    requires typed { IsTypedGoal (goal_of goal.now) }
    requires short { AreShort (goal_of goal.now) }
    requires linear { nonlinear_product (goal_of goal.now) ≡ None }
    requires stands { IsStandingWalk (goal_of goal.now) walk.old }
    requires kept { IsKeptPath (goal_of goal.now) (path_of walk.old.trail.path.items) }
    requires on { IsOn (goal_of goal.now) (path_of walk.old.trail.path.items) place }
    ensures { IfOk result (λ s.
        IsBelow (goal_of goal.now)
        (left_of (goal_of goal.now) (path_of walk.old.trail.path.items) + 1) walk.new s) }
{
    let Reached { ask, place } = go_on_from(alloc, goal, place, &walk.trail.path)?;
    match ask {
        Ask::Decide(atom) => Ok(Step::Asks(atom, place)),
        Ask::End(stated, found) => end(alloc, goal, walk, end_of(goal, stated, found)),
        Ask::Bits => Ok(Step::Done(Decision::Unknown(Cause::Bits))),
    }
}
