//! Kinds of checks.

/// One of the four kinds of checks.
#[derive(Clone, Copy, Debug, PartialEq, Eq, Hash)]
pub enum CheckKind {
    Assert,
    Assume,
    CoAssert,
    CoAssume,
}
