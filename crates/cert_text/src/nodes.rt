//! Nodes with two subtrees.

ghost use Rattle.std.specs.Prelude.{◌≡◌};
ghost use Rattle.goal_answers.specs.Trees.{tree_of};
ghost use Rattle.cert_text.specs.internal.ReadStates.{joined};

use goal_answers::Tree;

/// A node with two subtrees.
#[derive(Clone, Copy)]
pub enum Node {
    /// A comparison: its subtrees are for the answers yes and no.
    Question,
    /// An integer split: the variable is at most this number, or at least the next one.
    Whole(u32, i64),
}

/// A node on the path from the root to the open place of a tree.
#[derive(Drop)]
pub enum Way {
    /// The open place is in the first subtree.
    First(Node),
    /// The open place is in the second subtree; the first one is complete.
    Second(Node, Box<Tree>),
}

/// Returns the node with its two subtrees.
pub fn joined(node: Node, first: Box<Tree>, second: Box<Tree>) -> Tree
    ensures { tree_of result ≡ joined node (tree_of first.value) (tree_of second.value) }
{
    match node {
        Node::Question => Tree::Split(first, second),
        Node::Whole(variable, bound) => Tree::Whole(variable, bound, first, second),
    }
}
