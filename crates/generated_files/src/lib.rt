//! Generated files: a text with a given number of procedures. `AllocError` means that memory ran
//! out.
#![tactic(auto)]

mod laws;
mod texts;

pub use laws::{generated_texts_are_faultless, generated_texts_are_short};
pub use texts::generated_text;
