//! Exact values of formulas without binders in a given state.
#![tactic(auto)]

mod answers;
mod evaluation;
mod laws;
mod nodes;
mod operators;

pub use answers::{At, Held};
pub use evaluation::{goal_at, holds_at, value_at};
pub use laws::{exact_values_are_meant, numbers_in_use};
