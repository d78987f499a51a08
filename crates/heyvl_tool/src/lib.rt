//! The whole program as one function, `run_tool`.
//!
//! `AllocError` means that memory ran out.
#![tactic(auto)]

mod commands;
mod moments;
mod tool;

pub use command_line::settings;
pub use command_words::{Files, Settings, SettingsStop, Word};
pub use commands::respond;
pub use goal_answers::{Miss, NamedGoal};
pub use heylo_formula::{GoalId, Val};
pub use heyvl_replies::{
    Answer, Fault, LoopAnswer, RankVerdict, Response, Sums, Text, Unrolled, Verdict,
};
pub use moments::{Called, Written};
pub use tool::{FILE_LIMIT, run_tool};
pub use tool_laws::{
    Outcome, commands_are_complete, starts_are_counted, static_faults_are_told,
    told_faults_are_there,
};
