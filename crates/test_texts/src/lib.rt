//! Shared texts of the tests of formulas, rows and goals. The crate promises nothing.
//!
//! `AllocError` means that memory ran out, or that a line of a test is malformed.
#![tactic(auto)]

mod forms;
mod numbers;
mod rows;

pub use forms::{form_of, goal_of, test_of};
pub use numbers::{
    extended, fraction, multipliers_of, types_of, write_fraction, write_multipliers,
};
pub use rows::{sign, write_broken, write_point, write_row, write_rows};
