//! The rows of a path.

ghost use Rattle.std.specs.Prelude.{◌≤◌, ◌+◌, ◌++◌, [], length, IfOk, if◌then◌else◌};
ghost use Rattle.heylo_formula.specs.Goals.{goal_of};
ghost use Rattle.linear_form.specs.Paths.{IsPath, end_at};
ghost use Rattle.linear_form.specs.PathRows.{rows_of, path_claims, listed, denial_at};
ghost use Rattle.linear_values.specs.Tightening.{all_tightened};
ghost use Rattle.linear_form.specs.internal.FurtherRows.{rows_with};
ghost use Rattle.linear_form.specs.internal.NormalPaths.{IsNormalPath};
ghost use Rattle.linear_form.specs.PlainPaths.{path_of};
ghost use Rattle.linear_form.specs.RowLists.{Lists, AreRows, AreNumericRows, count_of};
ghost use Rattle.heylo_formula.specs.TypedGoals.{IsTypedGoal};
ghost use Rattle.heylo_formula.specs.Typing.{types_in};

use crate::further_rows::{with_answer, with_below};
use crate::path_ends::ask;
use crate::paths::Taken;
use crate::questions::Ask;
use crate::signs::with_signs;
use heylo_formula::{Goal, Ty};
use linear_rows::Row;
use std::alloc::{AllocError, Global};

/// The rows of a path, or an overflow of one of their numbers.
#[derive(Drop)]
pub enum RowList {
    /// The rows of the answers of the path, of the denied goal if it is asked for, and of the signs
    /// of unsigned variables.
    Rows(Vec<Row>),
    /// A number reaches 2^62, or the product of the constant and its factor reaches 2^127.
    Bits,
}

/// Returns the rows of the answered comparisons of `path`, in order.
fn path_rows(alloc: Global, types: &[Ty], path: &[Taken]) -> Result<RowList, AllocError>
    requires { IsNormalPath (path_of path.now) }
    ensures { IfOk result (λ r.
        Lists r (all_tightened (types_in types.now) (path_claims (path_of path.now)))) }
{
    let mut rows = Vec::new(alloc);
    let mut rest = path;
    'path: while let Some((taken, others)) = rest.split_first() {
        match with_answer(alloc, types, rows, &taken.atom, taken.held)? {
            RowList::Bits => return Ok(RowList::Bits),
            RowList::Rows(more) => rows = more,
        }
        rest = others;
    }
    Ok(RowList::Rows(rows))
}

/// Returns `rows` and the denied goal, if `path` is at an end and the goal is not trivial there.
fn with_denial(
    alloc: Global,
    goal: &Goal,
    path: &[Taken],
    rows: Vec<Row>,
) -> Result<RowList, AllocError>
    requires { IsPath (goal_of goal.now) (path_of path.now) }
    ensures { IfOk result (λ r.
        Lists r (rows_with (types_in (goal_of goal.now).types) rows.items
        (listed (denial_at (goal_of goal.now).upper
        (end_at (goal_of goal.now) (path_of path.now)))))) }
{
    match ask(alloc, goal, path)? {
        Ask::Decide(_) => Ok(RowList::Rows(rows)),
        Ask::Bits => Ok(RowList::Rows(rows)),
        Ask::End(stated, found) => {
            if goal.upper {
                with_below(alloc, &goal.vars, rows, &stated, &found)
            } else {
                with_below(alloc, &goal.vars, rows, &found, &stated)
            }
        }
    }
}

/// Returns the rows of the answered comparisons and, if `denied`, of the denied goal.
fn claimed_rows(
    alloc: Global,
    goal: &Goal,
    path: &[Taken],
    denied: bool,
) -> Result<RowList, AllocError>
    requires { IsPath (goal_of goal.now) (path_of path.now) }
    ensures { IfOk result (λ r.
        Lists r (all_tightened (types_in (goal_of goal.now).types)
        (path_claims (path_of path.now)
        ++ (if denied
        then listed (denial_at (goal_of goal.now).upper
        (end_at (goal_of goal.now) (path_of path.now))) else [])))) }
{
    match path_rows(alloc, &goal.vars, path)? {
        RowList::Bits => Ok(RowList::Bits),
        RowList::Rows(rows) => {
            if denied {
                with_denial(alloc, goal, path, rows)
            } else {
                Ok(RowList::Rows(rows))
            }
        }
    }
}

/// Returns the rows of `path`, each tightened to integers: a row for each answered comparison of
/// numbers, splits included; if `denied`, and `path` is at an end at which the goal does not hold
/// trivially, the denied goal; for each `UInt` and `UReal` variable that occurs before, in order,
/// that it is not negative. Returns `Bits` exactly if a number of a row reaches 2^62 before or
/// after it is tightened, or the product of the constant and its factor reaches 2^127.
pub fn rows(alloc: Global, goal: &Goal, path: &[Taken], denied: bool) -> Result<RowList, AllocError>
    requires { IsPath (goal_of goal.now) (path_of path.now) }
    ensures rows { IfOk result
        (λ r. Lists r (rows_of (goal_of goal.now) (path_of path.now) denied)) }
    ensures normal { IfOk result (λ r. AreRows r) }
    ensures numeric { IsTypedGoal (goal_of goal.now)
        → IfOk result (λ r. AreNumericRows (goal_of goal.now).types r) }
    ensures few { IfOk result (λ r. count_of r ≤ length path.now + 1 + length goal.now.vars.items) }
{
    match claimed_rows(alloc, goal, path, denied)? {
        RowList::Bits => Ok(RowList::Bits),
        RowList::Rows(before) => with_signs(alloc, &goal.vars, before),
    }
}
