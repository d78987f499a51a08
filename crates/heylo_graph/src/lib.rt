//! Forms and conditions as nodes of a graph, in which equal subtrees are one node.
//!
//! `AllocError` means that memory ran out.
#![tactic(auto)]

mod forms;
mod graphs;
mod insertion;
mod laws;
mod marks;
mod nodes;
mod renaming;
mod sizes;
mod substitution;

pub use graphs::Graph;
pub use laws::trees_stand_once;
pub use nodes::{Node, NodeId};
