//! Files of HeyVL from bytes: the file that they spell, or the file of the program of guarded
//! commands that they spell; its typed tree; and the errors.
//!
//! `AllocError` means that memory ran out.
#![tactic(auto)]

mod programs;
mod sources;

pub use programs::program_file;
pub use sources::{spelled_file, typed_source};
pub use spelled_files::{
    SourceStop, files_have_small_forms, files_stand_within, printed_text_prints_itself,
    program_files_are_unique, program_files_have_sums, source_fault_line, spelling_is_unique,
};
