//! Shared parts of tests by lines: comparing the lines with the results of the libraries, and
//! reading and writing their parts. The crate promises nothing.
//!
//! `AllocError` means that memory ran out, or that a line of a test is malformed.
#![tactic(auto)]

mod lines;
mod texts;

pub use lines::{LineKind, differences};
pub use texts::{
    calls_of, coefficient, count, cut, index, size, unsigned, whole, write_bytes, write_multiples,
    write_numbers,
};
