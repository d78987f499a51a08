//! The answers on the procedures of a file, and the text of the answers.
//!
//! `AllocError` means that memory ran out.
#![tactic(auto)]

mod answers;
mod causes;
mod goal_names;
mod loops;
mod reports;
mod settings;
mod states;
mod verdicts;

pub use answers::{Answer, LoopAnswer, RankVerdict, Verdict};
pub use causes::write_cause;
pub use goal_answers::{Miss, NamedGoal};
pub use goal_names::names_of_made;
pub use loops::interface_of;
pub use reports::report;
pub use states::write_state;
