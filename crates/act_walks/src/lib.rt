//! Walks over acts in the order of the text: the list of all acts, and the loop with a given
//! number.
//!
//! `AllocError` means that memory ran out.
#![tactic(auto)]

mod loops;
mod order;

pub use loops::loop_of;
pub use order::in_order;
