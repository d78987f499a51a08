//! Answers on goals as plain types: decisions, their causes, and certificates.
#![tactic(auto)]

mod causes;
mod decisions;
mod misses;
mod named_goals;
mod trees;

pub use causes::{Broken, Cause};
pub use decisions::Decision;
pub use misses::Miss;
pub use named_goals::NamedGoal;
pub use trees::{Checked, GoalCert, Tree};
