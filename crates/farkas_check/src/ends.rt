//! The end of a trail.

ghost use Rattle.std.specs.Prelude.{◌≡◌, ◌↔◌, Bool, IsTrue, IfOk, false};
ghost use Rattle.heylo_formula.specs.Goals.{goal_of};
ghost use Rattle.heylo_formula.specs.Typing.{types_in};
ghost use Rattle.linear_rows.specs.VariableTypes.{is_integral};
ghost use Rattle.linear_form.specs.AskAnswers.{Answers};
ghost use Rattle.linear_form.specs.Paths.{IsPath, end_at};
ghost use Rattle.linear_form.specs.PathRows.{rows_of, IsPlainAt};
ghost use Rattle.linear_form.specs.Places.{IsOn};
ghost use Rattle.linear_form.specs.PlainPaths.{path_of};
ghost use Rattle.linear_form.specs.RowLists.{ArePathRows, Lists, AreRows, StartsWith};
ghost use Rattle.farkas_check.specs.AcceptedCertificates.{has_denied, CanSplit};

use heylo_formula::{Goal, Ty};
use linear_form::{
    Ask, Place, Reached, RowList, Taken, go_on, holds_plainly, with_denied_goal, with_signs_of_path,
};
use linear_rows::{Occurrences, Row};
use std::alloc::{AllocError, Global};

/// Returns what is at the end of `path`, evaluated from `place`.
pub fn ask_there(
    alloc: Global,
    goal: &Goal,
    place: &Place,
    path: &[Taken],
) -> Result<Ask, AllocError>
    requires path { IsPath (goal_of goal.now) (path_of path.now) }
    requires on { IsOn (goal_of goal.now) (path_of path.now) place.now }
    ensures { IfOk result (λ a. Answers a (end_at (goal_of goal.now) (path_of path.now))) }
{
    let Reached { ask, place: _ } = go_on(alloc, goal, place, path)?;
    Ok(ask)
}

/// Returns whether `path` is at an end at which the goal holds trivially.
pub fn is_plain_at(
    alloc: Global,
    goal: &Goal,
    place: &Place,
    path: &[Taken],
) -> Result<bool, AllocError>
    requires path { IsPath (goal_of goal.now) (path_of path.now) }
    requires on { IsOn (goal_of goal.now) (path_of path.now) place.now }
    ensures { IfOk result (λ b. IsTrue b ↔ IsPlainAt (goal_of goal.now) (path_of path.now)) }
{
    match ask_there(alloc, goal, place, path)? {
        Ask::End(stated, found) => Ok(holds_plainly(goal.upper, &stated, &found)),
        Ask::Decide(_) | Ask::Bits => Ok(false),
    }
}

/// Returns whether `variable` is of type `Int` or `UInt`.
fn is_whole(types: &[Ty], variable: u32) -> bool
    ensures { result ≡ is_integral (types_in types.now variable) }
{
    match types.get(variable as usize) {
        None => false,
        Some(Ty::Bool) => false,
        Some(Ty::Int) => true,
        Some(Ty::UInt) => true,
        Some(Ty::UReal) => false,
    }
}

/// Returns whether `path` is at an end at which the goal does not hold trivially, and `variable` is
/// an `Int` or `UInt` of the goal.
pub fn can_split(
    alloc: Global,
    goal: &Goal,
    place: &Place,
    path: &[Taken],
    variable: u32,
) -> Result<bool, AllocError>
    requires path { IsPath (goal_of goal.now) (path_of path.now) }
    requires on { IsOn (goal_of goal.now) (path_of path.now) place.now }
    ensures { IfOk result (λ b. IsTrue b
        ↔ CanSplit (goal_of goal.now) (path_of path.now) variable) }
{
    match ask_there(alloc, goal, place, path)? {
        Ask::Decide(_) => Ok(false),
        Ask::End(stated, found) => {
            if holds_plainly(goal.upper, &stated, &found) {
                Ok(false)
            } else {
                Ok(is_whole(&goal.vars, variable))
            }
        }
        Ask::Bits => Ok(false),
    }
}

/// Returns the rows of `path` without the denied goal; `rows` are those of its answers.
fn with_signs(
    alloc: Global,
    goal: &Goal,
    path: &[Taken],
    rows: Vec<Row>,
) -> Result<RowList, AllocError>
    requires path { IsPath (goal_of goal.now) (path_of path.now) }
    requires rows { ArePathRows (goal_of goal.now) (path_of path.now) rows.items }
    ensures rows { IfOk result
        (λ r. Lists r (rows_of (goal_of goal.now) (path_of path.now) false)) }
    ensures normal { IfOk result (λ r. AreRows r) }
    ensures first { IfOk result (λ r. StartsWith rows.items r) }
{
    let mut occurrences = Occurrences::new(alloc, goal.vars.len())?;
    occurrences.note(&rows, 0);
    with_signs_of_path(alloc, goal, path, rows, &occurrences)
}

/// Returns the rows of a certificate at the end of `path`; `rows` are those of its answers, which
/// come first. At an end at which the goal does not hold trivially, the denied goal is among them.
pub fn rows_there(
    alloc: Global,
    goal: &Goal,
    place: &Place,
    path: &[Taken],
    rows: Vec<Row>,
) -> Result<RowList, AllocError>
    requires path { IsPath (goal_of goal.now) (path_of path.now) }
    requires on { IsOn (goal_of goal.now) (path_of path.now) place.now }
    requires rows { ArePathRows (goal_of goal.now) (path_of path.now) rows.items }
    ensures rows { IfOk result
        (λ r. Lists r
        (rows_of (goal_of goal.now) (path_of path.now)
        (has_denied (goal_of goal.now) (path_of path.now)))) }
    ensures normal { IfOk result (λ r. AreRows r) }
    ensures first { IfOk result (λ r. StartsWith rows.items r) }
{
    match ask_there(alloc, goal, place, path)? {
        Ask::Decide(_) => with_signs(alloc, goal, path, rows),
        Ask::End(stated, found) => {
            if holds_plainly(goal.upper, &stated, &found) {
                with_signs(alloc, goal, path, rows)
            } else {
                with_denied_goal(alloc, goal, path, &stated, &found, rows)
            }
        }
        Ask::Bits => with_signs(alloc, goal, path, rows),
    }
}
