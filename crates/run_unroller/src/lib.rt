//! Runs of HeyVL programs, unrolled for a number of steps, and their sums.
//!
//! `AllocError` means that memory ran out.
#![tactic(auto)]

mod answers;
mod causes;
mod copies;
mod laws;
mod lists;
mod merged_runs;
mod numbers;
mod totals;
mod turns;
mod unrolling;
mod values;
mod weights;

pub use answers::{Sums, Unrolled};
pub use laws::{
    full_lists_are_long, lists_are_runs, scripted_sums_grow, totals_are_sums,
    unrolled_sums_are_meant,
};
pub use unrolling::unroll;
