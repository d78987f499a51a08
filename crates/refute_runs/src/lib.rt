//! The search for the least number of steps after which the runs of a script exceed the pre of a
//! coproc.
//!
//! `AllocError` means that memory ran out.
#![tactic(auto)]

mod answers;
mod bisection;
mod probes;
mod violation_search;

pub use answers::Refuted;
pub use violation_search::refute;
