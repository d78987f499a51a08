//! Certificates: trees of answered comparisons.

use heylo_formula::GoalId;

/// A certificate of a goal: each comparison of a path with both answers, and, after the last
/// comparison, integer variables that are split at a number, until no state is left or the goal
/// holds plainly.
pub enum Tree {
    /// The trees for the states in which the comparison holds, and for those in which it fails.
    Split(Box<Tree>, Box<Tree>),
    /// Multipliers, each with the index of its row, that combine the rows of the path to a
    /// contradiction.
    Farkas(Vec<(u32, u64)>),
    /// The goal holds here without rows, since infinity is on the larger side.
    Plain,
    /// The trees for the states in which the integer variable is at most the number, and for those
    /// in which it is at least the next one.
    Whole(u32, i64, Box<Tree>, Box<Tree>),
}

impl Drop for Tree {
    fn drop(self) {
        match self {
            Tree::Split(_, _) => {}
            Tree::Farkas(_) => {}
            Tree::Plain => {}
            Tree::Whole(_, _, _, _) => {}
        }
    }
}

/// The certificate of a goal of a file: the number of the procedure, the name of the goal in the
/// procedure, and the tree.
pub struct GoalCert {
    pub proc: u32,
    pub id: GoalId,
    pub tree: Tree,
}

impl Drop for GoalCert {
    fn drop(self) {
        let GoalCert {
            proc: _,
            id: _,
            tree: _,
        } = self;
    }
}

/// The result of checking a tree: it is accepted, or it is refused, with the answers on the way to
/// the first refused node in the order of the text.
#[derive(Drop)]
pub enum Checked {
    Yes,
    No(Vec<bool>),
}
