//! Tests of the forms of acts in a graph. Each line of a text is a test.
//!
//! `AllocError` means that memory ran out, or that a line of a test is malformed.
#![tactic(auto)]

#[cfg(test)]
mod form_tests;
#[cfg(test)]
mod kinds;
#[cfg(test)]
mod steps;
