//! A path through a goal, with its rows.

ghost use Rattle.std.specs.Prelude.{◌≡◌, ◌++◌, ◌∷◌, List, [], take, IfOk};
ghost use Rattle.heylo_formula.specs.Goals.{goal_of};
ghost use Rattle.linear_form.specs.Paths.{IsPath};
ghost use Rattle.linear_form.specs.PlainPaths.{path_of, atom_of};
ghost use Rattle.linear_form.specs.Query.{onto};
ghost use Rattle.linear_form.specs.declared.paths.Taken.{Taken as TakenValue};
ghost use Rattle.farkas_check.specs.internal.Trails.{IsStated, IsLonger};

use heylo_formula::Goal;
use linear_form::{Atom, RowList, Taken, last_rows};
use linear_rows::Row;
use linear_values::lin::copy;
use std::alloc::{AllocError, Global};

/// A path, with the rows of its answers.
#[derive(Drop)]
pub struct Trail {
    pub path: Vec<Taken>,
    /// The rows of the answers, in order, up to the first one that overflows.
    pub rows: Vec<Row>,
    /// True if no row overflows.
    pub stated: bool,
}

/// Returns a copy of `atom`.
pub fn copy_atom(alloc: Global, atom: &Atom) -> Result<Atom, AllocError>
    ensures { IfOk result (λ a. atom_of a ≡ atom_of atom.now) }
{
    match atom {
        Atom::Truth(variable) => Ok(Atom::Truth(*variable)),
        Atom::Row(left, strict) => Ok(Atom::Row(copy(alloc, left)?, *strict)),
    }
}

/// Returns `trail` with one more answer.
pub fn further(
    alloc: Global,
    goal: &Goal,
    mut trail: Trail,
    answer: Taken,
) -> Result<Trail, AllocError>
    requires path { IsPath (goal_of goal.now)
        (onto (path_of trail.path.items) (atom_of answer.atom) answer.held) }
    requires rows { IsStated (goal_of goal.now)
        (path_of trail.path.items) trail.rows.items trail.stated }
    ensures { IfOk result (IsLonger (goal_of goal.now) trail answer) }
{
    trail.path.push(answer)?;
    if !trail.stated {
        return Ok(trail);
    }
    match last_rows(alloc, goal, &trail.path)? {
        RowList::Rows(mut more) => {
            trail.rows.append(&mut more)?;
            Ok(trail)
        }
        RowList::Bits => {
            trail.stated = false;
            Ok(trail)
        }
    }
}

/// Returns `trail` without its last answer; before this answer it had `count` rows, and the flag
/// `stated`.
pub fn shorter(mut trail: Trail, count: usize, stated: bool) -> Trail
    ensures path { (before : List TakenValue) (last : TakenValue)
        → trail.path.items ≡ before ++ last ∷ [] → result.path.items ≡ before }
    ensures rows { result.rows.items ≡ take count trail.rows.items }
    ensures stated { result.stated ≡ stated }
{
    trail.path.pop();
    trail.rows.truncate(count);
    trail.stated = stated;
    trail
}
