//! Laws of answers: they are complete if no cause applies to a goal, the outcomes of goals
//! determine one verdict, and certificates keep what was proved.
#![tactic(auto)]

mod laws;

pub use laws::{
    decisions_are_complete, goals_are_complete, tables_give_one_verdict, verdicts_are_complete,
    verdicts_are_unique,
};
