//! What texts, formulas and acts share: places in a file, names, and kinds of checks.
//!
//! `AllocError` means that memory ran out.
#![tactic(auto)]

mod checks;
mod names;
mod places;
mod spans;

pub use checks::CheckKind;
pub use names::Name;
pub use places::{Place, place_at};
pub use spans::Span;
