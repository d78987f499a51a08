//! Calls of the program: their outcomes, what their answers mean, and laws of both.
#![tactic(auto)]

mod completeness;
mod fault_laws;
mod outcomes;
mod refutation_laws;
mod start_laws;

pub use completeness::commands_are_complete;
pub use fault_laws::{static_faults_are_told, told_faults_are_there};
pub use outcomes::Outcome;
pub use refutation_laws::broken_bounds_are_never_verified;
pub use start_laws::starts_are_counted;
