//! The commands: definitions of their replies to the bytes of their files, and exit statuses.
//!
//! `AllocError` means that memory ran out.
#![tactic(auto)]

mod faults;
mod responses;
mod statuses;

pub use faults::Fault;
pub use responses::{Response, Text, answered, message, refused, stated};
pub use statuses::fault_status;
