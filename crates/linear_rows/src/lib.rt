//! Rows (linear inequalities with integer coefficients), the points that satisfy them, and their
//! combinations.
//!
//! `AllocError` means that memory ran out.
#![tactic(auto)]

mod bounds;
mod greedy_laws;
mod multipliers;
mod occurrences;
mod row;
mod row_laws;
mod same_terms;
mod terms;

pub use bounds::TooGreat;
pub use greedy_laws::greedy_choices_are_unique;
pub use multipliers::contradicts;
pub use occurrences::Occurrences;
pub use row::Row;
pub use row_laws::solutions_of_rows;
pub use same_terms::have_same_terms;
pub use terms::{
    coefficient_of, divided, divisor_of, merged, mixed, narrow_quotient, scaled, wide_product,
};
