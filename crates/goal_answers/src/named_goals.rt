//! The goals of a file.

use heylo_formula::{GoalId, Made};

/// A goal of a file: the number of its procedure, its name in the procedure, and the result of
/// making it.
#[derive(Drop)]
pub struct NamedGoal {
    pub proc: u32,
    pub id: GoalId,
    pub made: Made,
}
