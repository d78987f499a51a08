//! Tokens as texts.

use heyvl_syntax::{Lit, Token, TokenKind, lex};
use std::alloc::{AllocError, Global};
use std::fmt::Write;

fn write_number(lit: Lit, text: &mut String) -> Result<(), AllocError> {
    let digits = lit.digits;
    let places = lit.places;
    write!(text, "number {digits}/{places}")
}

fn write_kind(kind: &TokenKind, text: &mut String) -> Result<(), AllocError> {
    match kind {
        TokenKind::Word(name) => {
            text.push_str("word ")?;
            text.push_str(std::str::from_utf8(name.as_bytes()).unwrap_or("?"))
        }
        TokenKind::Number(lit) => write_number(*lit, text),
        TokenKind::Key(key) => write!(text, "key {key:?}"),
        TokenKind::Mark(mark) => write!(text, "mark {mark:?}"),
    }
}

fn write_tokens(tokens: &[Token], text: &mut String) -> Result<(), AllocError> {
    for token in tokens {
        write_kind(&token.kind, text)?;
        let span = token.span;
        write!(text, " {span}; ")?;
    }
    Ok(())
}

/// Writes the tokens of the bytes, each with its place, or the error.
pub fn write_lexed(alloc: Global, bytes: &[u8], text: &mut String) -> Result<(), AllocError> {
    if bytes.len() > 1000 {
        return Err(AllocError);
    }
    match lex(alloc, bytes) {
        Ok(tokens) => write_tokens(&tokens, text),
        Err(stop) => write!(text, "{stop}"),
    }
}
