//! Ranges of bytes in a file.

use std::fmt;

/// The bytes with an index from `from` up to, but not including, `to`. Indices count from 0.
#[derive(Clone, Copy, Debug, PartialEq, Eq, Hash)]
pub struct Span {
    pub from: u32,
    pub to: u32,
}

impl fmt::Display for Span {
    fn fmt<W: fmt::Write>(&self, f: &mut fmt::Formatter<W>) -> fmt::Result {
        write!(f, "{}..{}", self.from, self.to)
    }
}
