//! Weights: expressions as probabilities or steps.

use heyvl_num::Frac;

/// An expression as a weight.
#[derive(Clone, Copy, Debug)]
pub enum Weight {
    /// Neither a number literal nor one divided by another.
    NotLiteral,
    /// A number literal divided by one that is 0.
    OverZero,
    /// A value whose numerator or denominator in lowest terms is 2^62 or more.
    TooWide,
    /// Any other value.
    Value(Frac),
}
