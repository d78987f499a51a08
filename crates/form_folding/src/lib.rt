//! Forms that are added to a graph with their sums of numbers folded. `AllocError` means that
//! memory ran out.
#![tactic(auto)]

mod folding;

pub use folding::put_folded;
