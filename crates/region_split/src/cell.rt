//! The result of a cell of the walk.

ghost use Rattle.std.specs.Prelude.{List, take, IfOk};
ghost use Rattle.heylo_formula.specs.Goals.{Goal as PlainGoal, goal_of};
ghost use Rattle.linear_form.specs.Cells.{IsCell};
ghost use Rattle.linear_form.specs.PathRows.{IsPlainAt};
ghost use Rattle.linear_form.specs.PlainPaths.{path_of};
ghost use Rattle.linear_form.specs.Query.{Taken as PlainTaken};
ghost use Rattle.linear_guess.specs.Searches.{Remembers};
ghost use Rattle.region_split.specs.internal.Progress.{IsCellStand, IsJudged, IsOpen, IsPieceShown};
ghost use Rattle.region_split.specs.declared.findings.Found.TheVariants.{Point as PointFound};

use crate::findings::{Found, with_break, with_point};
use crate::front::End;
use crate::growth::leaf;
use crate::pieces::{Piece, broken_piece};
use crate::points::with_path;
use crate::solver::{Settled, Solved, settle, solve};
use goal_answers::{Cause, Tree};
use heylo_formula::{Goal, Val};
use linear_form::Taken;
use linear_guess::Search;
use linear_rows::Row;
use std::alloc::{AllocError, Global};

/// The result of a cell.
#[derive(Drop)]
pub enum Cell {
    /// The results of all cells up to this one, and the tree of this cell: None if it has ends, or
    /// the whole tree would be too deep.
    Judged(Found, Option<Tree>),
    /// There are more than 4,096 rows, or a number overflows.
    Unknown(Cause),
}

/// Decides a cell at which the goal does not hold trivially, with the rows `list` of its denied
/// goal, after the cells before it have given `found`. Its pieces are solved only if no point is
/// known.
pub fn judge(
    alloc: Global,
    goal: &Goal,
    path: &[Taken],
    list: &[Row],
    kept: usize,
    end: &End,
    found: Found,
    search: &mut Search,
) -> Result<Cell, AllocError>
    requires stands { IsCellStand (goal_of goal.now) (path_of path.now) list.now kept end.now }
    requires remembered { Remembers search.old list.now }
    ensures judged { IfOk result (λ c. IsJudged (goal_of goal.now) (path_of path.now) found c) }
    ensures remembered { Remembers search.new (take kept list.now) }
{
    match found {
        Found::Nothing => {
            let shown = open_cell(alloc, goal, path, list, kept, end, search)?;
            Ok(shown_cell(Found::Nothing, shown))
        }
        Found::Break(broken) => {
            let shown = open_cell(alloc, goal, path, list, kept, end, search)?;
            Ok(shown_cell(Found::Break(broken), shown))
        }
        Found::Point(point) => judge_further(alloc, goal, path, list, kept, end, point, search),
    }
}

/// Solves the pieces of a cell.
fn open_cell(
    alloc: Global,
    goal: &Goal,
    path: &[Taken],
    list: &[Row],
    kept: usize,
    end: &End,
    search: &mut Search,
) -> Result<Piece, AllocError>
    requires stands { IsCellStand (goal_of goal.now) (path_of path.now) list.now kept end.now }
    requires remembered { Remembers search.old list.now }
    ensures shown { IfOk result (λ p. IsPieceShown (goal_of goal.now) 0 (path_of path.now) p) }
    ensures remembered { Remembers search.new (take kept list.now) }
{
    match solve(alloc, list, kept, &goal.vars, search)? {
        Solved::Refuted(multipliers) => {
            Ok(Piece::Closed(leaf(Tree::Farkas(multipliers), path.len())))
        }
        Solved::Point(point) => Ok(Piece::Given(with_path(alloc, path, &point)?)),
        Solved::Break(broken) => { broken_piece(alloc, goal, path, &list[..kept], end, 0, broken) }
        Solved::Unknown(cause) => Ok(Piece::Unknown(cause)),
    }
}

/// Returns the results of all cells up to this one, whose pieces give `shown`, if no point is known
/// before.
fn shown_cell(found: Found, shown: Piece) -> Cell
    ensures { (g : PlainGoal) (ps : List PlainTaken) → IsOpen found → IsCell g ps
        → (IsPlainAt g ps → ⊥) → IsPieceShown g 0 ps shown → IsJudged g ps found result }
{
    match shown {
        Piece::Closed(tree) => Cell::Judged(found, tree),
        Piece::Broke(broken) => Cell::Judged(with_break(found, broken), None),
        Piece::Given(point) => Cell::Judged(with_point(found, point), None),
        Piece::Unknown(cause) => Cell::Unknown(cause),
    }
}

/// Decides a cell after a cell before has given `point`, so that no other point is needed.
fn judge_further(
    alloc: Global,
    goal: &Goal,
    path: &[Taken],
    list: &[Row],
    kept: usize,
    end: &End,
    point: Vec<Val>,
    search: &mut Search,
) -> Result<Cell, AllocError>
    requires stands { IsCellStand (goal_of goal.now) (path_of path.now) list.now kept end.now }
    requires remembered { Remembers search.old list.now }
    ensures judged { IfOk result
        (λ c. IsJudged (goal_of goal.now) (path_of path.now) (PointFound point) c) }
    ensures remembered { Remembers search.new (take kept list.now) }
{
    match settle(alloc, list, kept, &goal.vars, search)? {
        Settled::Refuted(multipliers) => Ok(Cell::Judged(
            Found::Point(point),
            leaf(Tree::Farkas(multipliers), path.len()),
        )),
        Settled::Met => Ok(Cell::Judged(Found::Point(point), None)),
        Settled::Unknown(cause) => Ok(Cell::Unknown(cause)),
    }
}
