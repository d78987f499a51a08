//! Elaborated expressions.

use heylo_formula::{Cond, Form};

/// The type of an expression that is a number.
#[derive(Clone, Copy, Debug, PartialEq, Eq)]
pub enum Kind {
    Int,
    UInt,
    UReal,
    EUReal,
}

/// An elaborated expression.
#[derive(Drop)]
pub enum Meaning {
    /// A condition, of type Bool.
    Truth(Cond),
    /// A number with its type.
    Number(Kind, Form),
    /// A variable of type Real, which has no common type with any other.
    Real,
}
