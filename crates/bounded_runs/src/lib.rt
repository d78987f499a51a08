//! Laws of bounds over runs: if the goals of a bound hold, all runs satisfy it; if the main goal of
//! a program without loops and calls fails, some runs violate it.
#![tactic(auto)]

mod laws;

pub use laws::{broken_goals_break_bounds, shown_bounds_hold};
