//! Exact Fourier-Motzkin elimination of variables from linear rows, with multipliers. `AllocError`
//! means that memory ran out.
#![tactic(auto)]

mod answers;
mod choices;
mod elimination;
mod ends;
mod fingerprints;
mod full_elimination;
mod gathered_rows;
mod join_counts;
mod join_numbers;
mod joins;
mod laws;
mod ordering;
mod refutations;
mod short_runs;
mod small_joins;
mod starts;
mod steps;
mod tables;
mod undominated_rows;

pub use answers::Elim;
pub use full_elimination::eliminate;
pub use goal_answers::{Broken, Cause};
pub use laws::elimination_decides;
