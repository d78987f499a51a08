//! The nested copies of a loop's body in latticed k-induction. `AllocError` means that memory ran
//! out.
#![tactic(auto)]

mod bounds;
mod copies;

pub use bounds::{if_holds, may, meets, must, stated};
pub use copies::unrolled;
