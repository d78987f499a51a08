//! The texts of lower bounds: answers on omega pairs and on remainder pairs.
//!
//! `AllocError` means that memory ran out.
#![tactic(auto)]

mod causes;
mod omega_texts;
mod remainder_texts;
mod scopes;

pub use omega_texts::omega_text;
pub use remainder_texts::remainder_text;
