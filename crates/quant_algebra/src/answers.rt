//! The answers of an evaluation.

use heyvl_num::Ext;

/// An exact value, or `Bits` if a number on the way overflows.
#[derive(Clone, Copy, Debug)]
pub enum At {
    Value(Ext),
    Bits,
}

/// A truth value, or `Bits` if a number on the way overflows.
#[derive(Clone, Copy, Debug, PartialEq, Eq)]
pub enum Held {
    Yes,
    No,
    Bits,
}
