//! The canonical text of a file. `AllocError` means that memory ran out.
#![tactic(auto)]

mod bytes;
mod expressions;
mod laws;
mod lines;
mod numbers;
mod procedures;
mod statements;
mod symbols;

pub use laws::{
    printable_files_are_spelled, printed_text_spells_the_file, printing_is_stable,
    text_ignores_places,
};
pub use procedures::print;
