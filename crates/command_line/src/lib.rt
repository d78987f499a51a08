//! The reading of the command line: the command that its arguments ask for.
//!
//! `AllocError` means that memory ran out.
#![tactic(auto)]

mod command_line;
mod line_counts;

pub use command_line::{USAGE, settings};
pub use line_counts::line_count;
