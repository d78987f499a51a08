//! The static rules of statements, procedures and files, and the typed tree of a file, as
//! definitions.
#![tactic(auto)]

mod settings;
mod weights;

pub use settings::Setting;
pub use weights::Weight;
