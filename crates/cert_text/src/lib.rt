//! The text of certificates.
//!
//! `AllocError` means that memory ran out.
#![tactic(auto)]

mod fronts;
mod goal_names;
mod laws;
mod lines;
mod nodes;
mod numbers;
mod reader;
mod states;
mod stops;
mod versions;
mod words;
mod writer;

pub use laws::{faults_are_unique, texts_are_unique};
pub use reader::read_cert;
pub use stops::CertStop;
pub use writer::write_cert;
