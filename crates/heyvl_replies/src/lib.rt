//! The replies of the commands to the bytes of their files, before they are written.
//!
//! `AllocError` means that memory ran out.
#![tactic(auto)]

pub mod commands;
mod procedure_commands;

pub use command_rules::{Fault, Response, Text, message};
pub use run_unroller::{Sums, Unrolled};
pub use verdict_report::{Answer, LoopAnswer, RankVerdict, Verdict};
