//! The front end for guarded commands with probabilistic and nondeterministic choice: the
//! translation of a program to a HeyVL file, the runs of the program, and the law that their sums
//! are those of this file.
//!
//! `AllocError` means that memory ran out.
#![tactic(auto)]

mod laws;
mod translation;

pub use guarded_commands::{
    Command, Declaration, PgclStop, Program, VariableType, commands_are_plain, parse_program,
    pgcl_sources_are_unique, program_fault_is_unique, program_is_unique,
    translation_fault_is_unique, translation_is_unique, translations_are_spelled,
};
pub use laws::{bounds_carry_over, sums_are_equal};
pub use translation::translate;
