//! The way up from a finished path.

ghost use Rattle.std.specs.Prelude.{List, IfOk};
ghost use Rattle.heylo_formula.specs.Goals.{Goal as PlainGoal};
ghost use Rattle.linear_form.specs.Query.{Taken as PlainTaken};
ghost use Rattle.linear_form.specs.PlainPaths.{path_of};
ghost use Rattle.region_split.specs.internal.Trails.{Stands};
ghost use Rattle.region_split.specs.internal.Progress.{IsAfter, IsUp};

use crate::growth::{joined, leaf};
use crate::trail::{Trail, Way, back, onward};
use goal_answers::Tree;
use linear_form::Taken;
use std::alloc::{AllocError, Global};

/// The result of going up.
#[derive(Drop)]
pub enum Up {
    /// The walk is at the next path.
    Next,
    /// The walk is at the root, and has finished: the whole tree.
    Whole(Option<Tree>),
}

/// Goes up from a finished path, whose tree is `tree`, to the next path: the lowest comparison
/// above that was answered with yes is answered with no, unless its answer repeats an earlier one.
/// `trees` are those of the finished branches to the left.
pub fn climb(
    alloc: Global,
    trail: &mut Trail,
    trees: &mut Vec<Option<Tree>>,
    mut tree: Option<Tree>,
) -> Result<Up, AllocError>
    ensures { (g : PlainGoal) (all : List (List PlainTaken)) → Stands g trail.old
        → IsAfter g (path_of trail.old.path.items) trees.old.items all tree
        → IfOk result (λ u. IsUp g (path_of trail.old.path.items) all trail.new trees.new.items u) }
{
    'up: loop {
        let answers = trail.path.len();
        let Some((answer, way)) = back(trail) else {
            return Ok(Up::Whole(tree));
        };
        let Taken { atom, held } = answer;
        if !held {
            tree = joined(alloc, trees.pop().flatten(), tree)?;
            continue 'up;
        }
        match way {
            Way::Open(place) => {
                trees.push(tree)?;
                onward(trail, Taken { atom, held: false }, Way::Open(place))?;
                return Ok(Up::Next);
            }
            Way::Closed(multipliers) => {
                tree = joined(alloc, tree, leaf(Tree::Farkas(multipliers), answers))?;
            }
        }
    }
}
