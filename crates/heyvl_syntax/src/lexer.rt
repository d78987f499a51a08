//! The lexer.

ghost use Rattle.heyvl_syntax.specs.Tokens.{IsFaultOrMemory, IsMemory, IsLexStop, Lexes, Stops};
ghost use Rattle.heyvl_syntax.specs.Tokens.{span_of};
ghost use Rattle.heyvl_syntax.specs.internal.Fronts.{token_of};
ghost use Rattle.heyvl_places.specs.declared.spans.Span.{Span};
ghost use Rattle.heyvl_syntax.specs.declared.tokens.Token.{Token};
ghost use Rattle.std.specs.Prelude.{◌+◌, ◌<◌, ◌^◌, ◌≡◌, ℕ, IfErr, IfOk, List, MatchResult, length};

use crate::fronts::{Front, front_of};
use crate::literals::literal;
use crate::{LexStop, Token, TokenKind};
use heyvl_places::{Name, Span};
use std::alloc::Global;

/// Returns the span of `n` bytes from the index `place` on.
fn span_of(place: usize, n: usize) -> Span
    requires { place + n < 2 ^ 32 }
    ensures { result ≡ span_of place n }
{
    Span {
        from: place as u32,
        to: (place + n) as u32,
    }
}

/// Returns the token of kind `kind` with the span of `n` bytes from the index `place` on.
fn token_of(kind: TokenKind, place: usize, n: usize) -> Token
    requires { place + n < 2 ^ 32 }
    ensures { result ≡ token_of kind place n }
{
    Token {
        kind,
        span: span_of(place, n),
    }
}

/// Returns the tokens or the leftmost error, part by part.
fn lex_parts(alloc: Global, bytes: &[u8]) -> Result<Vec<Token>, LexStop>
    requires { length bytes.now < 2 ^ 31 }
    ensures found { IfOk result (λ tokens. Lexes 0 bytes.now tokens.items) }
    ensures fault { IfErr result (λ stop. IsLexStop bytes.now stop) }
{
    let mut tokens = Vec::new(alloc);
    let mut place = 0;
    let mut rest = bytes;
    'parts: loop {
        match front_of(rest) {
            Front::End => return Ok(tokens),
            Front::Fault(number, n) => return Err(LexStop::Fault(number, span_of(place, n))),
            Front::Blank(n) => {
                place += n;
                let (_, behind) = rest.split_at(n);
                rest = behind;
            }
            Front::Word(n) => {
                let name = Name::of_front(alloc, rest, n)?;
                tokens.push(token_of(TokenKind::Word(name), place, n))?;
                place += n;
                let (_, behind) = rest.split_at(n);
                rest = behind;
            }
            Front::Number(n) => {
                let (text, behind) = rest.split_at(n);
                match literal(text) {
                    None => return Err(LexStop::Fault(3, span_of(place, n))),
                    Some(number) => tokens.push(token_of(TokenKind::Number(number), place, n))?,
                }
                place += n;
                rest = behind;
            }
            Front::Key(key, n) => {
                tokens.push(token_of(TokenKind::Key(key), place, n))?;
                place += n;
                let (_, behind) = rest.split_at(n);
                rest = behind;
            }
            Front::Mark(mark, n) => {
                tokens.push(token_of(TokenKind::Mark(mark), place, n))?;
                place += n;
                let (_, behind) = rest.split_at(n);
                rest = behind;
            }
        }
    }
}

/// Splits the bytes into white space, comments and, between them, the longest token at each place,
/// and returns the tokens.
///
/// # Errors
///
/// - `LexStop::Fault`: the bytes cannot be split; it is the leftmost error.
/// - `LexStop::Memory`: memory ran out.
pub fn lex(alloc: Global, bytes: &[u8]) -> Result<Vec<Token>, LexStop>
    requires { length bytes.now < 2 ^ 31 }
    ensures found { IfOk result (λ tokens. Lexes 0 bytes.now tokens.items) }
    ensures fault { IfErr result (λ stop. IsLexStop bytes.now stop) }
    ensures only { (tokens : List Token) → Lexes 0 bytes.now tokens
        → MatchResult result (λ found. found.items ≡ tokens) (λ stop. IsMemory stop) }
    ensures only_fault { (number : ℕ) (span : Span) → Stops 0 bytes.now number span
        → MatchResult result (λ _. ⊥) (λ stop. IsFaultOrMemory number span stop) }
{
    lex_parts(alloc, bytes)
}
