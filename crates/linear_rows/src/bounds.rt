//! The error of numbers that overflow.

/// An overflow: a number has more than 62 bits, or more than 126 bits on the way.
#[derive(Clone, Copy)]
pub struct TooGreat;
