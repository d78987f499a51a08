//! Pairs of procedures that claim lower bounds of procs with `@wlp` and one loop: their goals, and
//! the answers on them.
//!
//! `AllocError` means that memory ran out.
#![tactic(auto)]

mod answers;
mod input_bounds;
mod omega_goals;
mod pair_variables;
pub mod pairs;
mod placed_forms;
mod remainder_answers;
pub mod remainder_goals;
pub mod remainder_pairs;
mod shapes;
mod start_goals;
mod step_goals;
mod step_sides;

pub use answers::{Omega, Step};
pub use omega_goals::omega_goal;
pub use remainder_answers::Remainder;
pub use remainder_goals::remainder_goal;
pub use step_goals::step_goal;
