//! The arguments of the command line: the commands that they ask for, and the files of each
//! command.
//!
//! `AllocError` means that memory ran out.
#![tactic(auto)]

mod requests;
mod words;

pub use requests::{Files, Settings, SettingsStop};
pub use words::Word;
