//! The pre-expectation of acts as a formula, and formulas without binders.
//!
//! `AllocError` means that memory ran out.
#![tactic(auto)]

mod draws;
mod generation;
mod goals;
mod laws;
mod limits;
mod nodes_of_acts;
mod numbering;
mod prenexed_forms;
mod stops;
mod tosses;

pub use generation::{vp, vp_in};
pub use goals::goal_of_forms;
pub use laws::{
    generated_form_is_directed, generated_form_means_acts, prenexed_form_means_choices,
    prenexed_goals_speak_of_choices,
};
pub use numbering::prenex;
pub use prenexed_forms::Prenex;
pub use stops::VpStop;
