//! The decision of a goal: a walk through its comparisons either refutes the denied goal in each
//! cell, or finds a point at which the goal fails. `AllocError` means that memory ran out.
#![tactic(auto)]

mod answer_rows;
mod ascent;
mod atoms;
mod cell;
mod clashes;
mod decision;
mod decision_laws;
mod descent;
mod findings;
mod front;
mod growth;
mod known_comparisons;
mod moved_multipliers;
mod pieces;
mod points;
mod repeats;
mod solver;
mod trail;
mod walk;

pub use decision::decide;
pub use decision_laws::{
    decisions_are_unique, decisions_tell, splits_are_narrow, walk_trees_certify, walks_are_unique,
};
pub use goal_answers::Decision;
