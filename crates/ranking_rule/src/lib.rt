//! Rankings of loops: their goals, and the bounds on expected iterations that they prove.
//!
//! `AllocError` means that memory ran out.
#![tactic(auto)]

mod goals;
mod laws;
mod upward_acts;

pub use goals::ranking_goal;
pub use laws::{ranking_goals_say_rankings, rankings_bound_turns};
pub use upward_acts::upward;
