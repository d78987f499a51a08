//! The value that a variable takes between the ends of its interval.
#![tactic(auto)]

mod fractions;
mod picks;
mod sides;

pub use fractions::{fits, order, whole_of};
pub use picks::{Pick, taken_between};
pub use sides::{End, Side};
