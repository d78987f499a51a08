//! The places of what was read.

ghost use Rattle.heyvl_parse.specs.readers.Combinators.{taken};
ghost use Rattle.heyvl_syntax.specs.Productions.{extent, first_byte, last_end};
ghost use Rattle.std.specs.Prelude.{◌≡◌};

use heyvl_places::Span;
use heyvl_syntax::Token;

/// Returns the first byte of the first token, or 0 if there is no token.
fn first_byte(tokens: &[Token]) -> u32
    ensures { result ≡ first_byte tokens.now }
{
    match tokens.split_first() {
        None => 0,
        Some((token, _)) => token.span.from,
    }
}

/// Returns the end of the last token, or 0 if there is no token.
fn last_end(tokens: &[Token]) -> u32
    ensures { result ≡ last_end tokens.now }
{
    match tokens.split_last() {
        None => 0,
        Some((token, _)) => token.span.to,
    }
}

/// Returns the place of the tokens before `rest`.
pub fn span_between(tokens: &[Token], rest: &[Token]) -> Span
    ensures { result ≡ extent (taken tokens.now rest.now) }
{
    let (front, _) = tokens.split_at(tokens.len().saturating_sub(rest.len()));
    Span {
        from: first_byte(front),
        to: last_end(front),
    }
}
