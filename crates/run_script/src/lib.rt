//! Scripts of runs: their texts, the state in which a run under a script starts, and the text of
//! its result.
//!
//! `AllocError` means that memory ran out.
#![tactic(auto)]

mod laws;
mod lines;
mod reader;
mod scripts;
mod starts;
mod stops;
mod texts;

pub use laws::{faults_are_unique, scripts_are_unique, scripts_have_no_fault};
pub use reader::read_script;
pub use scripts::{Script, Setting};
pub use starts::{known_variables, start_state, start_state_over};
pub use stops::ScriptStop;
pub use texts::{script_fault_text, stop_text, sums_text, violation_text, within_text};
