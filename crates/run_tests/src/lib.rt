//! Tests of runs under a script, by `run_tool` over the devices in memory. Each line of a text is a
//! test.
//!
//! `AllocError` means that memory ran out, or that a line of a test is malformed.
#![tactic(auto)]

#[cfg(test)]
mod kinds;
#[cfg(test)]
mod program_tests;
#[cfg(test)]
mod refusal_tests;
#[cfg(test)]
mod runs;
