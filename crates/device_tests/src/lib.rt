//! Tests of the devices: those in memory, whose calls fail as a test says, and real files and
//! outputs. Each line of a text is a test.
//!
//! `AllocError` means that memory ran out, or that a line of a test is malformed.
#![tactic(auto)]

#[cfg(test)]
mod file_tests;
#[cfg(test)]
mod kinds;
#[cfg(test)]
mod memory_tests;
#[cfg(test)]
mod output_tests;
#[cfg(test)]
mod sinks;
#[cfg(test)]
mod sources;
