//! The types that a program can name.

/// The name of a type.
#[derive(Clone, Copy, Debug, PartialEq, Eq)]
pub enum TypeName {
    Bool,
    Int,
    UInt,
    UReal,
    EUReal,
    Real,
}
