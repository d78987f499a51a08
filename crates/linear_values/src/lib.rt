//! Linear values, and the integer rows to which inequalities between them are tightened.
//!
//! `AllocError` means that memory ran out.
#![tactic(auto)]

pub mod lin;
mod linear_terms;
pub mod multiples;
pub mod numbers;
mod tightening;

pub use lin::Lin;
pub use tightening::tightened;
