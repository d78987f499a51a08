//! Tests of `run_tool` over the devices in memory, whose calls fail as a test says. Each line of a
//! text is a test.
//!
//! `AllocError` means that memory ran out, or that a line of a test is malformed.
#![tactic(auto)]

#[cfg(test)]
mod call_tests;
#[cfg(test)]
mod calls;
#[cfg(test)]
mod kinds;
