//! Typed right sides: the acts of assignments and declarations, what the rules before a loop give
//! it, and the errors in them. `AllocError` means that memory ran out.
#![tactic(auto)]

mod assignments;
mod choices;
mod draws;
mod integers;
mod loop_rules;
mod right_sides;
mod typed_values;
mod value_types;
mod weights;

pub use assignments::{read_assign, read_var};
pub use loop_rules::{Found, loop_act, read_rules, told_of_loop};
