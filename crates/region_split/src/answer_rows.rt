//! The rows of the two answers to the next comparison of a path.

ghost use Rattle.std.specs.Prelude.{◌≡◌, ◌++◌, ◌∷◌, [], length, Bool, true, IfOk};
ghost use Rattle.heylo_formula.specs.Goals.{goal_of};
ghost use Rattle.linear_form.specs.Cells.{GoesOn};
ghost use Rattle.linear_form.specs.Paths.{IsPath};
ghost use Rattle.linear_form.specs.PathRows.{answer_claims};
ghost use Rattle.linear_form.specs.PlainPaths.{path_of, taken_of, atom_of};
ghost use Rattle.linear_form.specs.Query.{onto};
ghost use Rattle.linear_form.specs.RowLists.{ArePathRows};
ghost use Rattle.region_split.specs.internal.Trails.{Stands};
ghost use Rattle.region_split.specs.internal.Repeats.{IsRowAnswer, IsBoth};

use crate::trail::Trail;
use goal_answers::Cause;
use heylo_formula::Goal;
use linear_form::{Atom, RowList, Taken, next_row, rows as rows_of_path};
use linear_rows::Row;
use std::alloc::{AllocError, Global};

/// The row of an answer.
#[derive(Drop)]
pub enum Answered {
    /// The comparison and the row of the answer. The path and its rows are unchanged.
    Row(Atom, Row),
    /// A number of the row overflows. The path is unchanged; its rows are lost.
    Bits(Atom),
}

/// The rows of the two answers to a comparison.
#[derive(Drop)]
pub struct AnswerRows {
    pub yes: Row,
    pub no: Row,
}

/// The rows of the answers to the next comparison of a path.
#[derive(Drop)]
pub enum Both {
    /// The comparison and the rows. The trail is unchanged.
    Rows(Atom, AnswerRows),
    /// A number of the second row overflows. The trail is unchanged.
    Lost(Atom),
    /// A number overflows.
    Unknown(Cause),
}

/// Returns the row of an answer to the next comparison of `path`, which is one of numbers.
fn row_of_answer(
    alloc: Global,
    goal: &Goal,
    path: &mut Vec<Taken>,
    rows: &mut Vec<Row>,
    answer: Taken,
) -> Result<Answered, AllocError>
    requires path { IsPath (goal_of goal.now) (path_of path.old.items ++ (taken_of answer ∷ [])) }
    requires rows { ArePathRows (goal_of goal.now) (path_of path.old.items) rows.old.items }
    requires comparison { length (answer_claims (atom_of answer.atom) answer.held) ≡ 1 }
    ensures { IfOk result (λ a.
        IsRowAnswer (goal_of goal.now) path.old.items rows.old.items answer path.new.items
        rows.new.items a) }
{
    path.push(answer)?;
    let before = std::mem::replace(rows, Vec::new(alloc));
    let list = next_row(alloc, goal, path, before)?;
    let Some(last) = path.pop() else {
        unreachable!()
    };
    match list {
        RowList::Rows(mut more) => match more.pop() {
            Some(row) => {
                *rows = more;
                Ok(Answered::Row(last.atom, row))
            }
            None => unreachable!(),
        },
        RowList::Bits => Ok(Answered::Bits(last.atom)),
    }
}

/// Returns the rows of both answers to the comparison `atom` of numbers, the next one of the path
/// of `trail`.
pub fn rows_of_answers(
    alloc: Global,
    goal: &Goal,
    trail: &mut Trail,
    atom: Atom,
) -> Result<Both, AllocError>
    requires path { IsPath (goal_of goal.now) (path_of trail.old.path.items) }
    requires stands { Stands (goal_of goal.now) trail.old }
    requires goes_on { GoesOn (goal_of goal.now) (path_of trail.old.path.items) (atom_of atom) }
    requires comparison { (held : Bool) → length (answer_claims (atom_of atom) held) ≡ 1 }
    ensures { IfOk result (λ b.
        IsBoth (goal_of goal.now) (path_of trail.old.path.items) (atom_of atom) trail.new b) }
{
    let yes = Taken { atom, held: true };
    match row_of_answer(alloc, goal, &mut trail.path, &mut trail.rows, yes)? {
        Answered::Bits(_) => Ok(Both::Unknown(Cause::Bits)),
        Answered::Row(question, row) => with_no(alloc, goal, trail, question, row),
    }
}

fn with_no(
    alloc: Global,
    goal: &Goal,
    trail: &mut Trail,
    atom: Atom,
    yes: Row,
) -> Result<Both, AllocError>
    requires path { IsPath (goal_of goal.now) (path_of trail.old.path.items) }
    requires stands { Stands (goal_of goal.now) trail.old }
    requires goes_on { GoesOn (goal_of goal.now) (path_of trail.old.path.items) (atom_of atom) }
    requires comparison { (held : Bool) → length (answer_claims (atom_of atom) held) ≡ 1 }
    requires yes { ArePathRows (goal_of goal.now)
        (onto (path_of trail.old.path.items) (atom_of atom) true)
        (trail.old.rows.items ++ (yes ∷ [])) }
    ensures { IfOk result (λ b.
        IsBoth (goal_of goal.now) (path_of trail.old.path.items) (atom_of atom) trail.new b) }
{
    let count = trail.rows.len();
    let other = Taken { atom, held: false };
    match row_of_answer(alloc, goal, &mut trail.path, &mut trail.rows, other)? {
        Answered::Row(question, no) => Ok(Both::Rows(question, AnswerRows { yes, no })),
        Answered::Bits(question) => {
            let RowList::Rows(mut list) = rows_of_path(alloc, goal, &trail.path, false)? else {
                return Ok(Both::Unknown(Cause::Bits));
            };
            list.truncate(count);
            trail.rows = list;
            Ok(Both::Lost(question))
        }
    }
}
