//! The results of the cells of a walk so far.

ghost use Rattle.std.specs.Prelude.{◌++◌, ◌∷◌, [], List};
ghost use Rattle.heylo_formula.specs.Goals.{Goal as PlainGoal};
ghost use Rattle.linear_form.specs.Query.{Taken as PlainTaken};
ghost use Rattle.linear_form.specs.Cells.{IsCell};
ghost use Rattle.region_split.specs.Pieces.{HasFirstPoint};
ghost use Rattle.region_split.specs.internal.Progress.{IsBroken, IsFound};

use goal_answers::Broken;
use heylo_formula::Val;

/// The results of the cells of a walk so far.
#[derive(Drop)]
pub enum Found {
    /// The goal holds in each cell.
    Nothing,
    /// Some cells have ends, and the greedy choice breaks at each of them; this is the first break.
    Break(Box<Broken>),
    /// The point of the first end at which the greedy choice does not break.
    Point(Vec<Val>),
}

/// Returns the result after one more cell with `point` as its first point.
pub fn with_point(found: Found, point: Vec<Val>) -> Found
    ensures { (g : PlainGoal) (cells : List (List PlainTaken)) (ps : List PlainTaken)
        → IsFound g cells found → IsCell g ps → HasFirstPoint g 0 ps point.items
        → IsFound g (cells ++ (ps ∷ [])) result }
{
    match found {
        Found::Nothing => Found::Point(point),
        Found::Break(_) => Found::Point(point),
        Found::Point(first) => Found::Point(first),
    }
}

/// Returns the result after one more cell that has ends, each of which breaks, the first one as
/// `broken` says.
pub fn with_break(found: Found, broken: Box<Broken>) -> Found
    ensures { (g : PlainGoal) (cells : List (List PlainTaken)) (ps : List PlainTaken)
        → IsFound g cells found → IsBroken g 0 ps broken.value
        → IsFound g (cells ++ (ps ∷ [])) result }
{
    match found {
        Found::Nothing => Found::Break(broken),
        Found::Break(first) => Found::Break(first),
        Found::Point(first) => Found::Point(first),
    }
}
