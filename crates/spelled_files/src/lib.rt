//! Files that bytes spell and files of programs of guarded commands: their definitions, and their
//! laws.
//!
//! `AllocError` means that memory ran out.
#![tactic(auto)]

mod fault_lines;
mod file_laws;
mod print_laws;
mod program_laws;
mod stops;

pub use fault_lines::{source_fault_line, token_place};
pub use file_laws::{files_have_small_forms, files_stand_within};
pub use print_laws::{printed_text_prints_itself, spelling_is_unique};
pub use program_laws::{program_files_are_unique, program_files_have_sums};
pub use stops::SourceStop;
