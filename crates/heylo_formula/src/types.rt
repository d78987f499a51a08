//! Types of variables.

/// The type of a variable. An Int is any integer, a UInt a nonnegative integer, a UReal a
/// nonnegative fraction.
#[derive(Clone, Copy, Debug, PartialEq, Eq, Hash)]
pub enum Ty {
    Bool,
    Int,
    UInt,
    UReal,
}
