//! Lower bounds of procs with `@wlp` and one loop, on the expected post of the runs that terminate
//! within few iterations.
//!
//! `AllocError` means that memory ran out.
#![tactic(auto)]

mod decisions;
mod laws;
mod omegas;
mod pair_answers;
mod remainders;
mod verdicts;

pub use laws::{omega_bounds_runs, remainder_bounds_runs};
pub use omegas::omega;
pub use remainders::remainder;
