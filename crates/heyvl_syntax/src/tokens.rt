//! Tokens.

use crate::{Key, Lit, Mark};
use heyvl_places::{Name, Span};

/// The kind of a token: an identifier, a number, a keyword or a symbol.
#[derive(Drop)]
pub enum TokenKind {
    Word(Name),
    Number(Lit),
    Key(Key),
    Mark(Mark),
}

/// A token and its place in the bytes.
#[derive(Drop)]
pub struct Token {
    pub kind: TokenKind,
    pub span: Span,
}
