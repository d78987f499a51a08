//! The texts of numbers, of values and of places, which all outputs use.
//!
//! `AllocError` means that memory ran out.
#![tactic(auto)]

mod writer;

pub use writer::{write_fraction, write_number, write_place, write_value};
