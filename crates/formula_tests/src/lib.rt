//! Tests of numbers, formulas, their values and their graphs, through the public functions of the
//! crates that make them. Each line of a text is a test.
//!
//! `AllocError` means that memory ran out, or that a line of a test is malformed.
#![tactic(auto)]

#[cfg(test)]
mod formula_tests;
#[cfg(test)]
mod graph_tests;
#[cfg(test)]
mod kinds;
#[cfg(test)]
mod number_tests;
#[cfg(test)]
mod value_tests;
