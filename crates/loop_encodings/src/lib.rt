//! The encoding of loops by invariants and copies, and of calls by contracts.
//!
//! `AllocError` means that memory ran out.
#![tactic(auto)]

mod calls;
mod encoded_bodies;
mod encoding;
mod laws;
mod loops;
mod variables;

pub use encoded_bodies::Encoded;
pub use encoding::encode;
pub use laws::{encodings_are_over_their_variables, main_goals_lack_fresh_variables};
