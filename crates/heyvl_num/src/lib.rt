//! Exact fractions, and fractions extended by infinity. Arithmetic is exact: an operation whose
//! integers overflow 127 bits returns `None`.
#![tactic(auto)]

mod bounded_numbers;
mod divisors;
mod extended_numbers;
mod fractions;
mod laws;

pub use divisors::gcd;
pub use extended_numbers::Ext;
pub use fractions::Frac;
pub use laws::{
    fractions_by_cross_products, growth_of_operators, operators_on_values, order_of_fractions,
    order_of_values, ring_of_fractions, semiring_of_values, weighted_sums, weights_of_outcomes,
    whole_numbers,
};
