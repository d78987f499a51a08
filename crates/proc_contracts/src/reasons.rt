//! Why a procedure is not a program.

use heyvl_places::Span;

/// The reason why a procedure is not a program.
#[derive(Clone, Copy, Debug)]
pub enum WhyNot {
    /// It has no body.
    NoBody,
    /// It is a proc without `@wlp`.
    NoWlp,
    /// Its post has a quantifier.
    Quantifier,
    /// The place of the first statement of its body that no program of its direction has: a check,
    /// a validation, or a choice of two blocks in the other direction.
    Statement(Span),
}
