//! The check of certificates: trees that show, comparison by comparison, that a goal holds.
//! `AllocError` means that memory ran out.
#![tactic(auto)]

mod checker;
mod ends;
mod laws;
mod trail;

pub use checker::check;
pub use goal_answers::{Checked, GoalCert, Tree};
pub use laws::{certificates_are_told_apart, certified_goals_hold};
