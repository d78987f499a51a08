//! Decisions of goals.

use crate::causes::Cause;
use crate::trees::Tree;
use heylo_formula::Val;

/// The decision of a goal.
#[derive(Drop)]
pub enum Decision {
    /// The goal holds in every state. Its certificate is left out if it would be deeper than 1,000.
    Proved(Option<Tree>),
    /// The goal fails in this state.
    Falsified(Vec<Val>),
    /// The goal is undecided, with the cause.
    Unknown(Cause),
}
