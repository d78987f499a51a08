//! Laws of resolved files: their typed trees satisfy the static rules, their formulas are small,
//! and each file has one answer.
#![tactic(auto)]

mod laws;
mod resolution_laws;

pub use laws::{resolved_files_meet_the_rules, resolved_forms_are_small};
pub use resolution_laws::{resolved_trees_meet_the_rules, resolving_is_unique};
