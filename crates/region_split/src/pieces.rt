//! The pieces of a cell: if the greedy choice finds no integer for a variable, the cell is split
//! there.

ghost use Rattle.std.specs.Prelude.{◌≡◌, ◌++◌, ◌∷◌, [], IfOk, List, map, true, ℕ};
ghost use Prim.Native.Nat.{suc};
ghost use Rattle.heylo_formula.specs.Goals.{Goal as PlainGoal, goal_of};
ghost use Rattle.heylo_formula.specs.TypedGoals.{IsTypedGoal};
ghost use Rattle.linear_form.specs.PlainPaths.{path_of, taken_of};
ghost use Rattle.linear_form.specs.Query.{Taken as PlainTaken, onto};
ghost use Rattle.linear_form.specs.Splits.{split_at};
ghost use Rattle.region_split.specs.Pieces.{IsSplitAt, first_half, second_half};
ghost use Rattle.region_split.specs.internal.PathFindings.{IsBreakAt};
ghost use Rattle.region_split.specs.internal.Progress.{IsBroken, IsClosed, IsPieceShown};
ghost use Rattle.region_split.specs.internal.Progress.{IsPieceStand};

use crate::front::End;
use crate::growth::{joined_halves, leaf};
use crate::known_comparisons::copy_row;
use crate::points::with_path;
use crate::solver::{Solved, solve_rows};
use goal_answers::{Broken, Cause, Tree};
use heylo_formula::{Goal, Val};
use linear_form::{RowList, Taken, copy_atom, next_row, split, with_denied_goal};
use linear_rows::Row;
use linear_values::numbers::narrow;
use std::alloc::{AllocError, Global};

/// The maximum number of splits above a piece.
const MOST_SPLITS: u32 = 8;

/// The result of a piece of a cell.
#[derive(Drop)]
pub enum Piece {
    /// The piece has no ends: its tree, or None if the whole tree would be too deep.
    Closed(Option<Tree>),
    /// The greedy choice breaks at each end of the piece; this is the first break.
    Broke(Box<Broken>),
    /// The point of the first end at which the greedy choice does not break.
    Given(Vec<Val>),
    /// There are more than 4,096 rows, or a number overflows.
    Unknown(Cause),
}

/// A split of a piece: in the first half the variable is at most `bound`, in the second at least
/// `bound + 1`.
#[derive(Clone, Copy)]
pub struct Split {
    pub variable: u32,
    pub bound: i64,
}

/// Solves the rows of the piece at `path` after `splits` splits, and splits the piece if their
/// greedy choice breaks.
#[cycle(splitting)]
fn piece_shown(
    alloc: Global,
    goal: &Goal,
    path: &[Taken],
    rows: &[Row],
    end: &End,
    splits: u32,
) -> Result<Piece, AllocError>
    requires typed { IsTypedGoal (goal_of goal.now) }
    requires stands { IsPieceStand (goal_of goal.now) splits (path_of path.now) rows.now end.now }
    ensures { IfOk result (λ p. IsPieceShown (goal_of goal.now) splits (path_of path.now) p) }
{
    let own = copy_rows(alloc, rows)?;
    let RowList::Rows(list) = with_denied_goal(alloc, goal, path, &end.stated, &end.found, own)?
    else {
        return Ok(Piece::Unknown(Cause::Bits));
    };
    match solve_rows(alloc, &list, &goal.vars)? {
        Solved::Refuted(multipliers) => {
            Ok(Piece::Closed(leaf(Tree::Farkas(multipliers), path.len())))
        }
        Solved::Point(point) => Ok(Piece::Given(with_path(alloc, path, &point)?)),
        Solved::Break(broken) => broken_piece(alloc, goal, path, rows, end, splits, broken),
        Solved::Unknown(cause) => Ok(Piece::Unknown(cause)),
    }
}

/// Returns the result of the piece at `path` after `splits` splits, for whose rows the greedy
/// choice breaks as `broken` says.
#[cycle(splitting)]
pub fn broken_piece(
    alloc: Global,
    goal: &Goal,
    path: &[Taken],
    rows: &[Row],
    end: &End,
    splits: u32,
    broken: Broken,
) -> Result<Piece, AllocError>
    requires typed { IsTypedGoal (goal_of goal.now) }
    requires stands { IsPieceStand (goal_of goal.now) splits (path_of path.now) rows.now end.now }
    requires breaks { IsBreakAt (goal_of goal.now) (path_of path.now) true broken }
    ensures { IfOk result (λ p. IsPieceShown (goal_of goal.now) splits (path_of path.now) p) }
{
    if splits >= MOST_SPLITS {
        return Ok(Piece::Broke(Box::new(alloc, broken)?));
    }
    let at = Split {
        variable: broken.var,
        bound: narrow(broken.low.floor()).unwrap(),
    };
    halves(alloc, goal, path, rows, end, splits, &at)
}

/// Returns the result of a piece that is split at `at`: first its first half is solved, then its
/// second. After a point, nothing more is solved.
#[cycle(splitting)]
fn halves(
    alloc: Global,
    goal: &Goal,
    path: &[Taken],
    rows: &[Row],
    end: &End,
    splits: u32,
    at: &Split,
) -> Result<Piece, AllocError>
    requires typed { IsTypedGoal (goal_of goal.now) }
    requires stands { IsPieceStand (goal_of goal.now) splits (path_of path.now) rows.now end.now }
    requires split { IsSplitAt (goal_of goal.now) splits
        (path_of path.now) at.now.variable at.now.bound }
    ensures { IfOk result (λ p. IsPieceShown (goal_of goal.now) splits (path_of path.now) p) }
{
    match half(alloc, goal, path, rows, end, splits, at, true)? {
        Piece::Closed(tree) => {
            let second = half(alloc, goal, path, rows, end, splits, at, false)?;
            behind_closed(alloc, at, tree, second)
        }
        Piece::Broke(first) => {
            let second = half(alloc, goal, path, rows, end, splits, at, false)?;
            Ok(behind_broken(at, first, second))
        }
        Piece::Given(point) => Ok(Piece::Given(point)),
        Piece::Unknown(cause) => Ok(Piece::Unknown(cause)),
    }
}

/// Returns the result of a piece from those of its halves; the first half has no ends.
fn behind_closed(
    alloc: Global,
    at: &Split,
    tree: Option<Tree>,
    second: Piece,
) -> Result<Piece, AllocError>
    ensures { (g : PlainGoal) (n : ℕ) (ps : List PlainTaken)
        → IsSplitAt g n ps at.now.variable at.now.bound
        → IsClosed g (suc n) (first_half ps at.now.variable at.now.bound) tree
        → IsPieceShown g (suc n) (second_half ps at.now.variable at.now.bound) second
        → IfOk result (λ p. IsPieceShown g n ps p) }
{
    match second {
        Piece::Closed(other) => Ok(Piece::Closed(joined_halves(alloc, at, tree, other)?)),
        Piece::Broke(broken) => Ok(Piece::Broke(broken)),
        Piece::Given(point) => Ok(Piece::Given(point)),
        Piece::Unknown(cause) => Ok(Piece::Unknown(cause)),
    }
}

/// Returns the result of a piece from those of its halves; the first half breaks.
fn behind_broken(at: &Split, first: Box<Broken>, second: Piece) -> Piece
    ensures { (g : PlainGoal) (n : ℕ) (ps : List PlainTaken)
        → IsSplitAt g n ps at.now.variable at.now.bound
        → IsBroken g (suc n) (first_half ps at.now.variable at.now.bound) first.value
        → IsPieceShown g (suc n) (second_half ps at.now.variable at.now.bound) second
        → IsPieceShown g n ps result }
{
    match second {
        Piece::Closed(_) => Piece::Broke(first),
        Piece::Broke(_) => Piece::Broke(first),
        Piece::Given(point) => Piece::Given(point),
        Piece::Unknown(cause) => Piece::Unknown(cause),
    }
}

/// Returns the result of a half of a piece: of the first half if `held`, otherwise of the second.
#[cycle(splitting)]
fn half(
    alloc: Global,
    goal: &Goal,
    path: &[Taken],
    rows: &[Row],
    end: &End,
    splits: u32,
    at: &Split,
    held: bool,
) -> Result<Piece, AllocError>
    requires typed { IsTypedGoal (goal_of goal.now) }
    requires stands { IsPieceStand (goal_of goal.now) splits (path_of path.now) rows.now end.now }
    requires split { IsSplitAt (goal_of goal.now) splits
        (path_of path.now) at.now.variable at.now.bound }
    ensures { IfOk result (λ p.
        IsPieceShown (goal_of goal.now) (suc splits)
        (onto (path_of path.now) (split_at at.now.variable at.now.bound) held) p) }
{
    let atom = split(alloc, at.variable, at.bound)?;
    let longer = with_answer(alloc, path, Taken { atom, held })?;
    let own = copy_rows(alloc, rows)?;
    match next_row(alloc, goal, &longer, own)? {
        RowList::Rows(more) => piece_shown(alloc, goal, &longer, &more, end, splits + 1),
        RowList::Bits => Ok(Piece::Unknown(Cause::Bits)),
    }
}

/// Returns `path` with one more answer.
fn with_answer(alloc: Global, path: &[Taken], answer: Taken) -> Result<Vec<Taken>, AllocError>
    ensures { IfOk result (λ longer. path_of longer.items ≡ path_of path.now
        ++ (taken_of answer ∷ [])) }
{
    let mut longer = copy_path(alloc, path)?;
    longer.push(answer)?;
    Ok(longer)
}

fn copy_path(alloc: Global, path: &[Taken]) -> Result<Vec<Taken>, AllocError>
    ensures { IfOk result (λ made. map taken_of made.items ≡ map taken_of path.now) }
{
    let mut made = Vec::new(alloc);
    for taken in path {
        made.push(copy_answer(alloc, taken)?)?;
    }
    Ok(made)
}

fn copy_answer(alloc: Global, taken: &Taken) -> Result<Taken, AllocError>
    ensures { IfOk result (λ made. taken_of made ≡ taken_of taken.now) }
{
    Ok(Taken {
        atom: copy_atom(alloc, &taken.atom)?,
        held: taken.held,
    })
}

fn copy_rows(alloc: Global, rows: &[Row]) -> Result<Vec<Row>, AllocError>
    ensures { IfOk result (λ made. made.items ≡ rows.now) }
{
    let mut made = Vec::new(alloc);
    for row in rows {
        made.push(copy_row(alloc, row)?)?;
    }
    Ok(made)
}
