//! The trees of finished branches.

ghost use Rattle.std.specs.Prelude.{◌≡◌, List, IfOk, true, false, ℕ};
ghost use Prim.Native.Nat.{suc};
ghost use Rattle.heylo_formula.specs.Goals.{Goal as PlainGoal};
ghost use Rattle.linear_form.specs.Query.{Taken as PlainTaken, Atom, onto};
ghost use Rattle.linear_form.specs.Cells.{GoesOn};
ghost use Rattle.goal_answers.specs.Trees.{Tree as PlainTree, tree_of};
ghost use Rattle.region_split.specs.Pieces.{IsSplitAt, first_half, second_half};
ghost use Rattle.region_split.specs.internal.Progress.{IsGrown, IsLeaf, IsPieceGrown};

use crate::pieces::Split;
use goal_answers::Tree;
use std::alloc::{AllocError, Global};

/// The maximum depth of a tree.
const MOST_DEPTH: usize = 1000;

/// Returns the tree of a branch that ends after `answers` answers, or None if the whole tree would
/// be deeper than 1,000. So no tree is built that cannot be returned.
pub fn leaf(tree: Tree, answers: usize) -> Option<Tree>
    ensures { IsLeaf answers tree result }
{
    if answers < MOST_DEPTH {
        Some(tree)
    } else {
        None
    }
}

/// Returns the tree that splits into `left` and `right`, or None if one of them is missing.
pub fn joined(
    alloc: Global,
    left: Option<Tree>,
    right: Option<Tree>,
) -> Result<Option<Tree>, AllocError>
    ensures { (g : PlainGoal) (ps : List PlainTaken) (q : Atom) → GoesOn g ps q
        → IsGrown g (onto ps q true) left → IsGrown g (onto ps q false) right
        → IfOk result (λ t. IsGrown g ps t) }
{
    match left {
        Some(first) => match right {
            Some(second) => Ok(Some(split(alloc, first, second)?)),
            None => Ok(None),
        },
        None => Ok(None),
    }
}

/// Returns the tree of a piece that is split at `at` into two with the trees `first` and `second`,
/// or None if one of them is missing.
pub fn joined_halves(
    alloc: Global,
    at: &Split,
    first: Option<Tree>,
    second: Option<Tree>,
) -> Result<Option<Tree>, AllocError>
    ensures { (g : PlainGoal) (n : ℕ) (ps : List PlainTaken)
        → IsSplitAt g n ps at.now.variable at.now.bound
        → IsPieceGrown g (suc n) (first_half ps at.now.variable at.now.bound) first
        → IsPieceGrown g (suc n) (second_half ps at.now.variable at.now.bound) second
        → IfOk result (λ t. IsPieceGrown g n ps t) }
{
    match first {
        Some(left) => match second {
            Some(right) => Ok(Some(whole(alloc, at, left, right)?)),
            None => Ok(None),
        },
        None => Ok(None),
    }
}

fn whole(alloc: Global, at: &Split, left: Tree, right: Tree) -> Result<Tree, AllocError>
    ensures { IfOk result (λ t. tree_of t
        ≡ PlainTree.whole at.now.variable at.now.bound (tree_of left) (tree_of right)) }
{
    let first = Box::new(alloc, left)?;
    let second = Box::new(alloc, right)?;
    Ok(Tree::Whole(at.variable, at.bound, first, second))
}

fn split(alloc: Global, left: Tree, right: Tree) -> Result<Tree, AllocError>
    ensures { IfOk result (λ t. tree_of t ≡ PlainTree.split (tree_of left) (tree_of right)) }
{
    let first = Box::new(alloc, left)?;
    let second = Box::new(alloc, right)?;
    Ok(Tree::Split(first, second))
}
