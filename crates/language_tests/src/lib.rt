//! Tests of the language through the public functions that no command reaches: tokens, trees,
//! places and copies. Each line of a text is a test.
//!
//! `AllocError` means that memory ran out, or that a line of a test is malformed.
#![tactic(auto)]

#[cfg(test)]
mod expression_tests;
#[cfg(test)]
mod file_tests;
#[cfg(test)]
mod file_texts;
#[cfg(test)]
mod kinds;
#[cfg(test)]
mod token_tests;
#[cfg(test)]
mod token_texts;
#[cfg(test)]
mod tree_texts;
