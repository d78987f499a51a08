//! Runs of HeyVL programs, step by step.
//!
//! `AllocError` means that memory ran out.
#![tactic(auto)]

mod block_steps;
mod blocks;
mod call_steps;
mod choice_steps;
mod configuration_steps;
mod configurations;
mod copies;
mod evaluation;
mod laws;
mod limits;
mod loop_steps;
mod plain_steps;
mod starts;
mod tosses;

pub use configuration_steps::step;
pub use configurations::{Config, Decide, Frame, Item, Stepped};
pub use laws::{
    decisions_decide_steps, runs_continue, same_is_equal, steps_weigh_one, stored_steps_are_meant,
};
pub use starts::begin;
