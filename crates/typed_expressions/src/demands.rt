//! The demands of a place on its expression.

/// The types that an expression may have.
#[derive(Clone, Copy, Debug, PartialEq, Eq)]
pub enum Demand {
    /// Any type.
    Any,
    /// Bool.
    Truth,
    /// UInt, UReal or EUReal.
    Formula,
}

/// The quantifiers that may occur at the place of an expression.
#[derive(Clone, Copy, Debug, PartialEq, Eq)]
pub enum Front {
    /// None.
    Closed,
    /// `sup`, which may lead a post clause of a coproc.
    Sup,
    /// `inf`, which may lead a post clause of a proc.
    Inf,
}
