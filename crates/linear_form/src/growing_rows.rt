//! The rows of a path, built answer by answer.

ghost use Rattle.std.specs.Prelude.{◌≤◌, ◌+◌, length, true, false, IfOk};
ghost use Rattle.heylo_formula.specs.Goals.{goal_of};
ghost use Rattle.heylo_formula.specs.TypedGoals.{IsTypedGoal};
ghost use Rattle.heylo_formula.specs.Typing.{types_in};
ghost use Rattle.linear_form.specs.AskAnswers.{Answers};
ghost use Rattle.linear_rows.specs.Occurrences.{AreOccurrences};
ghost use Rattle.linear_form.specs.Paths.{IsPath, end_at};
ghost use Rattle.linear_form.specs.PathRows.{rows_of, path_claims, listed, denial_at};
ghost use Rattle.linear_values.specs.Tightening.{all_tightened};
ghost use Rattle.linear_form.specs.PlainPaths.{path_of};
ghost use Rattle.linear_form.specs.internal.FurtherRows.{rows_with};
ghost use Rattle.linear_form.specs.RowLists.{Lists, AreRows, AreNumericRows, count_of, ArePathRows};
ghost use Rattle.linear_form.specs.RowLists.{LackLastRow, AreLastRows, StartsWith};
ghost use Rattle.linear_form.specs.declared.questions.Ask.TheVariants.{End};

use crate::further_rows::{with_answer, with_below};
use crate::path_rows::RowList;
use crate::paths::Taken;
use crate::signs::{with_noted_signs, with_signs};
use heylo_formula::Goal;
use linear_rows::{Occurrences, Row};
use linear_values::Lin;
use std::alloc::{AllocError, Global};

/// Returns the rows of the answered comparisons of `path`; `rows` are those of `path` without its
/// last answer. The truth of a Boolean has no row.
pub fn next_row(
    alloc: Global,
    goal: &Goal,
    path: &[Taken],
    rows: Vec<Row>,
) -> Result<RowList, AllocError>
    requires path { IsPath (goal_of goal.now) (path_of path.now) }
    requires rows { LackLastRow (goal_of goal.now) (path_of path.now) rows.items }
    ensures { IfOk result (λ r.
        Lists r (all_tightened (types_in (goal_of goal.now).types)
        (path_claims (path_of path.now)))) }
{
    match path.split_last() {
        None => Ok(RowList::Rows(rows)),
        Some((taken, _)) => with_answer(alloc, &goal.vars, rows, &taken.atom, taken.held),
    }
}

/// Returns the row of the last answer of `path`: none if it is the truth of a Boolean, or if there
/// is no answer.
pub fn last_rows(alloc: Global, goal: &Goal, path: &[Taken]) -> Result<RowList, AllocError>
    requires { IsPath (goal_of goal.now) (path_of path.now) }
    ensures { IfOk result (AreLastRows (goal_of goal.now) (path_of path.now)) }
{
    let none = Vec::new(alloc);
    match path.split_last() {
        None => Ok(RowList::Rows(none)),
        Some((taken, _)) => with_answer(alloc, &goal.vars, none, &taken.atom, taken.held),
    }
}

/// Returns the rows of `path` without the denied goal; `rows` are those of its answers, and
/// `occurrences` says where variables occur in them.
pub fn with_signs_of_path(
    alloc: Global,
    goal: &Goal,
    path: &[Taken],
    rows: Vec<Row>,
    occurrences: &Occurrences,
) -> Result<RowList, AllocError>
    requires path { IsPath (goal_of goal.now) (path_of path.now) }
    requires rows { ArePathRows (goal_of goal.now) (path_of path.now) rows.items }
    requires occurrences { AreOccurrences (length goal.now.vars.items) rows.items occurrences.now }
    ensures rows { IfOk result
        (λ r. Lists r (rows_of (goal_of goal.now) (path_of path.now) false)) }
    ensures normal { IfOk result (λ r. AreRows r) }
    ensures numeric { IsTypedGoal (goal_of goal.now)
        → IfOk result (λ r. AreNumericRows (goal_of goal.now).types r) }
    ensures few { IfOk result (λ r. count_of r ≤ length path.now + 1 + length goal.now.vars.items) }
    ensures first { IfOk result (λ r. StartsWith rows.items r) }
{
    with_noted_signs(alloc, &goal.vars, rows, occurrences)
}

/// Returns the rows of `path` with the denied goal; `rows` are those of its answers, and `stated`
/// and `found` are the values of the two forms at its end.
pub fn with_denied_goal(
    alloc: Global,
    goal: &Goal,
    path: &[Taken],
    stated: &Option<Lin>,
    found: &Option<Lin>,
    rows: Vec<Row>,
) -> Result<RowList, AllocError>
    requires path { IsPath (goal_of goal.now) (path_of path.now) }
    requires ends { Answers (End stated.now found.now)
        (end_at (goal_of goal.now) (path_of path.now)) }
    requires rows { ArePathRows (goal_of goal.now) (path_of path.now) rows.items }
    ensures rows { IfOk result (λ r. Lists r (rows_of (goal_of goal.now) (path_of path.now) true)) }
    ensures normal { IfOk result (λ r. AreRows r) }
    ensures numeric { IsTypedGoal (goal_of goal.now)
        → IfOk result (λ r. AreNumericRows (goal_of goal.now).types r) }
    ensures few { IfOk result (λ r. count_of r ≤ length path.now + 1 + length goal.now.vars.items) }
    ensures first { IfOk result (λ r. StartsWith rows.items r) }
{
    match with_denial(alloc, goal, path, stated, found, rows)? {
        RowList::Bits => Ok(RowList::Bits),
        RowList::Rows(before) => with_signs(alloc, &goal.vars, before),
    }
}

/// Returns `rows`, followed by the row of the denied goal unless the goal holds trivially.
fn with_denial(
    alloc: Global,
    goal: &Goal,
    path: &[Taken],
    stated: &Option<Lin>,
    found: &Option<Lin>,
    rows: Vec<Row>,
) -> Result<RowList, AllocError>
    requires path { IsPath (goal_of goal.now) (path_of path.now) }
    requires ends { Answers (End stated.now found.now)
        (end_at (goal_of goal.now) (path_of path.now)) }
    ensures { IfOk result (λ r.
        Lists r (rows_with (types_in (goal_of goal.now).types) rows.items
        (listed (denial_at (goal_of goal.now).upper
        (end_at (goal_of goal.now) (path_of path.now)))))) }
{
    if goal.upper {
        with_below(alloc, &goal.vars, rows, stated, found)
    } else {
        with_below(alloc, &goal.vars, rows, found, stated)
    }
}
