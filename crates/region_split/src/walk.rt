//! The walk through the comparisons of a goal.

ghost use Rattle.std.specs.Prelude.{◌≡◌, ◌<◌, ◌≤◌, List, [], length, IfOk, None, false};
ghost use Rattle.heylo_formula.specs.Goals.{Goal as PlainGoal, goal_of};
ghost use Rattle.linear_form.specs.PlainPaths.{path_of};
ghost use Rattle.linear_form.specs.Query.{Taken as PlainTaken};
ghost use Rattle.linear_form.specs.Nonlinear.{nonlinear_product};
ghost use Rattle.heylo_formula.specs.TypedGoals.{IsTypedGoal};
ghost use Rattle.region_split.specs.Decisions.{IsDecision};
ghost use Rattle.region_split.specs.internal.PathFindings.{IsEndOf};
ghost use Rattle.region_split.specs.internal.Progress.{AreShort, IsWalk, IsStandingWalk};
ghost use Rattle.region_split.specs.internal.Progress.{IsFinishedWalk, IsStep, IsFound, IsBranch};

use crate::ascent::{Up, climb};
use crate::cell::{Cell, judge};
use crate::descent::deeper;
use crate::findings::Found;
use crate::front::{End, Front, look};
use crate::growth::leaf;
use crate::trail::{Trail, start};
use goal_answers::{Cause, Decision, Tree};
use heylo_formula::Goal;
use linear_form::{Atom, Place, RowList, with_denied_goal};
use std::alloc::{AllocError, Global};

/// The maximum number of cells of a walk.
const MOST_CELLS: u32 = 4096;

/// The state of a walk: its trail, the trees of the finished branches to its left, the number of
/// cells before, and their results.
#[derive(Drop)]
pub struct Walk {
    pub trail: Trail,
    pub trees: Vec<Option<Tree>>,
    pub count: u32,
    pub found: Found,
}

/// The result of visiting a path.
#[derive(Drop)]
pub enum Step {
    /// The walk continues at a path that is not classified yet.
    On,
    /// The walk continues at a path with solvable rows: its next comparison, and the evaluation
    /// that asks it.
    Asks(Atom, Place),
    /// The goal is decided.
    Done(Decision),
}

/// Decides a goal without nonlinear products by a walk through its comparisons.
pub fn walked(alloc: Global, goal: &Goal) -> Result<Decision, AllocError>
    requires typed { IsTypedGoal (goal_of goal.now) }
    requires short { AreShort (goal_of goal.now) }
    requires linear { nonlinear_product (goal_of goal.now) ≡ None }
    ensures { IfOk result (λ d. IsDecision (goal_of goal.now) d) }
{
    let mut walk = Walk {
        trail: start(alloc, goal)?,
        trees: Vec::new(alloc),
        count: 0,
        found: Found::Nothing,
    };
    let mut step = Step::On;
    'walk: loop {
        match step {
            Step::On => step = visit(alloc, goal, &mut walk)?,
            Step::Asks(atom, place) => step = deeper(alloc, goal, &mut walk, atom, place)?,
            Step::Done(decision) => return Ok(decision),
        }
    }
}

/// Classifies the path of the walk, and continues to the next one.
fn visit(alloc: Global, goal: &Goal, walk: &mut Walk) -> Result<Step, AllocError>
    requires typed { IsTypedGoal (goal_of goal.now) }
    requires short { AreShort (goal_of goal.now) }
    requires linear { nonlinear_product (goal_of goal.now) ≡ None }
    requires comes { IsWalk (goal_of goal.now) walk.old }
    ensures { IfOk result (λ s.
        IsStep (goal_of goal.now) (path_of walk.old.trail.path.items) walk.new s) }
{
    match look(alloc, goal, &mut walk.trail)? {
        Front::Dropped(multipliers) => {
            let tree = leaf(Tree::Farkas(multipliers), walk.trail.path.len());
            finish(alloc, walk, tree)
        }
        Front::Question(atom, place) => deeper(alloc, goal, walk, atom, place),
        Front::End(ends) => end(alloc, goal, walk, ends),
        Front::Unknown(cause) => Ok(Step::Done(Decision::Unknown(cause))),
    }
}

/// Counts a cell and decides it.
pub fn end(alloc: Global, goal: &Goal, walk: &mut Walk, ends: End) -> Result<Step, AllocError>
    requires typed { IsTypedGoal (goal_of goal.now) }
    requires short { AreShort (goal_of goal.now) }
    requires linear { nonlinear_product (goal_of goal.now) ≡ None }
    requires stands { IsStandingWalk (goal_of goal.now) walk.old }
    requires at_end { IsEndOf (goal_of goal.now) (path_of walk.old.trail.path.items) ends }
    ensures { IfOk result (λ s.
        IsStep (goal_of goal.now) (path_of walk.old.trail.path.items) walk.new s) }
{
    if walk.count >= MOST_CELLS {
        return Ok(Step::Done(Decision::Unknown(Cause::Cells(MOST_CELLS + 1))));
    }
    if !ends.plain {
        return denied_end(alloc, goal, walk, ends);
    }
    let tree = leaf(Tree::Plain, walk.trail.path.len());
    walk.count += 1;
    finish(alloc, walk, tree)
}

/// Decides a cell at which the goal does not hold trivially.
fn denied_end(alloc: Global, goal: &Goal, walk: &mut Walk, ends: End) -> Result<Step, AllocError>
    requires typed { IsTypedGoal (goal_of goal.now) }
    requires short { AreShort (goal_of goal.now) }
    requires linear { nonlinear_product (goal_of goal.now) ≡ None }
    requires stands { IsStandingWalk (goal_of goal.now) walk.old }
    requires at_end { IsEndOf (goal_of goal.now) (path_of walk.old.trail.path.items) ends }
    requires not_plain { ends.plain ≡ false }
    requires few { walk.old.count < 4096 }
    ensures { IfOk result (λ s.
        IsStep (goal_of goal.now) (path_of walk.old.trail.path.items) walk.new s) }
{
    let found = std::mem::replace(&mut walk.found, Found::Nothing);
    let trail = &mut walk.trail;
    let kept = trail.rows.len();
    let rows = std::mem::replace(&mut trail.rows, Vec::new(alloc));
    let RowList::Rows(mut list) = with_denied_goal(
        alloc,
        goal,
        &trail.path,
        &ends.stated,
        &ends.found,
        rows,
    )?
    else {
        return Ok(Step::Done(Decision::Unknown(Cause::Bits)));
    };
    let search = &mut trail.search;
    let cell = judge(alloc, goal, &trail.path, &list, kept, &ends, found, search)?;
    list.truncate(kept);
    trail.rows = list;
    match cell {
        Cell::Judged(found, tree) => {
            walk.count += 1;
            walk.found = found;
            finish(alloc, walk, tree)
        }
        Cell::Unknown(cause) => Ok(Step::Done(Decision::Unknown(cause))),
    }
}

fn finish(alloc: Global, walk: &mut Walk, tree: Option<Tree>) -> Result<Step, AllocError>
    ensures { (g : PlainGoal) → nonlinear_product g ≡ None → IsFinishedWalk g walk.old tree
        → IfOk result (λ s. IsStep g (path_of walk.old.trail.path.items) walk.new s) }
{
    match climb(alloc, &mut walk.trail, &mut walk.trees, tree)? {
        Up::Next => Ok(Step::On),
        Up::Whole(tree) => {
            let found = std::mem::replace(&mut walk.found, Found::Nothing);
            Ok(Step::Done(decided(found, tree)))
        }
    }
}

/// Returns the decision after all cells are walked.
fn decided(found: Found, tree: Option<Tree>) -> Decision
    ensures { (g : PlainGoal) (all : List (List PlainTaken)) → nonlinear_product g ≡ None
        → IsFound g all found → length all ≤ 4096 → IsBranch g [] all tree → IsDecision g result }
{
    match found {
        Found::Nothing => Decision::Proved(tree),
        Found::Break(broken) => Decision::Unknown(Cause::Fraction(Box::into_inner(broken))),
        Found::Point(point) => Decision::Falsified(point),
    }
}
