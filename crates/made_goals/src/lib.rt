//! Goals of two formulas over variables: a stated bound, and a computed form. `AllocError` means
//! that memory ran out.
#![tactic(auto)]

mod copies;
mod goals;
mod upper_goals;

pub use copies::{copied, copy_of};
pub use goals::{generated_goal, goal_over};
pub use upper_goals::upper_goal;
