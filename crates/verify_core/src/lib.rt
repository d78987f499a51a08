//! The goals of the procedures of a file, and the answers on the procedures.
//!
//! `AllocError` means that memory ran out.
#![tactic(auto)]

mod answering;
mod bound_questions;
mod certificate_search;
mod certificate_verdicts;
mod decisions;
mod laws;
mod outcomes;
mod procedure_goals;
mod rankings;
mod reached_answers;
mod settled_goals;
mod verifier;
mod whole;

pub use laws::{
    answers_keep_promises, made_goals_lack_fresh_variables, made_goals_say_bounds,
    proved_goals_are_accepted, toss_products_are_linear,
};
pub use procedure_goals::goals;
pub use verifier::{check_all, verify};
pub use whole::Whole;
