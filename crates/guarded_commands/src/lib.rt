//! The guarded command language with probabilistic and nondeterministic choice: programs, their
//! parser, and their translation to HeyVL. `AllocError` means that memory ran out.
#![tactic(auto)]

mod commands;
mod declarations;
mod laws;
mod lines;
mod program_reader;
mod programs;
mod reserved_names;
mod source_laws;
mod starts;
mod statements;
mod stops;
mod translation;
mod tree_laws;

pub use laws::{
    program_fault_is_unique, program_is_unique, translation_fault_is_unique, translation_is_unique,
    translations_are_spelled,
};
pub use program_reader::parse_program;
pub use programs::{Command, Declaration, Program, VariableType};
pub use source_laws::pgcl_sources_are_unique;
pub use stops::PgclStop;
pub use translation::translate;
pub use tree_laws::commands_are_plain;
