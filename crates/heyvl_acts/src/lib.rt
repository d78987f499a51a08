//! Acts: the statements of a typed procedure, their meaning, and the static rules of a typed file.
//!
//! `AllocError` means that memory ran out.
#![tactic(auto)]

mod acts;
mod copies;
mod counts;
mod laws;
mod places;
mod targets;
mod typed_trees;

pub use acts::{Act, LoopAct};
pub use counts::count;
pub use laws::forward_meaning_matches_runs;
pub use places::act_at;
pub use targets::is_target;
pub use typed_trees::{TProc, Typed, VarInfo};
