//! The operators of expressions.

/// A prefix operator.
#[derive(Clone, Copy, Debug, PartialEq, Eq)]
pub enum UnaryOp {
    /// `!`
    Not,
    /// `-`
    Minus,
    /// `~`
    Tilde,
}

/// A binary operator. The variants that bind loosest come first.
#[derive(Clone, Copy, Debug, PartialEq, Eq)]
pub enum BinaryOp {
    /// `==>`
    Imply,
    /// `<==`
    CoImply,
    /// `\cup`
    Cup,
    /// `\cap`
    Cap,
    /// `||`
    Or,
    /// `&&`
    And,
    /// `==`
    Same,
    /// `!=`
    Differ,
    /// `<`
    Less,
    /// `<=`
    AtMost,
    /// `>`
    More,
    /// `>=`
    AtLeast,
    /// `+`
    Plus,
    /// `-`
    Minus,
    /// `*`
    Star,
    /// `/`
    Slash,
}
