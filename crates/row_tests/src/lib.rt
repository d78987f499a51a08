//! Tests of rows: proposals, elimination, and the rows of linear values. Each line of a text is a
//! test.
//!
//! `AllocError` means that memory ran out, or that a line of a test is malformed.
#![tactic(auto)]

#[cfg(test)]
mod contradiction_tests;
#[cfg(test)]
mod elimination_tests;
#[cfg(test)]
mod fractions;
#[cfg(test)]
mod guess_tests;
#[cfg(test)]
mod kinds;
#[cfg(test)]
mod test_rows;
#[cfg(test)]
mod tightening_tests;
