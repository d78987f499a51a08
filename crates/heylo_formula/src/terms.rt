//! Terms, which are substituted for variables.

use crate::forms::{Cond, Form};

/// A term: a condition, which replaces a Boolean variable, or a form, which replaces a numeric one.
#[derive(Drop)]
pub enum Term {
    Truth(Cond),
    Num(Form),
}
