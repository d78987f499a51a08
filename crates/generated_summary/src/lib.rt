//! The answers on generated texts, and their summary.
//!
//! `AllocError` means that memory ran out.
#![tactic(auto)]

mod reports;
mod summaries;

pub use reports::{Summary, summarize};
