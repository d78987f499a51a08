//! Forms of HeyLo with binders, their conditions and terms, substitution, and goals.
//!
//! `AllocError` means that memory ran out.
#![tactic(auto)]

mod copies;
mod forms;
mod goals;
mod laws;
mod numeric_variables;
mod occurrences;
mod quantifiers;
mod renaming;
mod shifts;
mod sizes;
mod substitution;
mod terms;
mod types;
mod values;

pub use forms::{Cond, Form};
pub use goals::{Goal, GoalId, Made};
pub use laws::{
    bounds_hold_by_choices, finite_choices_have_meanings, growth_of_validates,
    lists_are_environments, renaming_renames_the_state, shifting_moves_the_state,
    substitution_changes_the_state, substitution_keeps_binders, substitution_keeps_types,
    terms_have_values_of_their_types, types_bound_values, what_free_variables_decide,
    what_goals_speak_of, what_renaming_keeps, what_substitution_gives, what_values_depend_on,
};
pub use terms::Term;
pub use types::Ty;
pub use values::Val;
