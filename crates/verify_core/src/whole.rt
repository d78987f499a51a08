//! The answers on a whole file.

use goal_answers::{GoalCert, NamedGoal};
use verdict_report::Answer;

/// The answers on the procedures of a file, with the goals and certificates that belong to them.
#[derive(Drop)]
pub struct Whole {
    /// One answer per procedure, in the order of the file.
    pub answers: Vec<Answer>,
    /// The goals whose state or cause is in an answer, in the order of the file.
    pub made: Vec<NamedGoal>,
    /// The certificates of the proved goals, in the order of the file and of the goals. A goal
    /// whose tree would be deeper than 1,000 has none.
    pub certs: Vec<GoalCert>,
}
