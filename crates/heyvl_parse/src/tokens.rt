//! The readers of single tokens.

ghost use Rattle.heyvl_parse.specs.readers.Combinators.{is_key, is_word, kind, sign, starts};
ghost use Rattle.heyvl_parse.specs.readers.ReadParts.{expect, given, is_mark, next, type_name};
ghost use Rattle.heyvl_parse.specs.readers.ReadParts.{type_of, word};
ghost use Rattle.heyvl_parse.specs.readers.Results.{Gives};
ghost use Rattle.heyvl_parse.specs.internal.Statements.{by_key};
ghost use Rattle.std.specs.Prelude.{IfOk, Some, length, ◌+◌, ◌<◌, ◌≡◌};

use crate::stops::PartStop;
use heyvl_places::{Name, Span};
use heyvl_syntax::{Key, Mark, Token, TokenKind, TypeName};
use std::alloc::Global;

/// Reads one token.
pub fn next(tokens: &[Token]) -> Result<(&Token, &[Token]), PartStop>
    ensures value { Gives (λ x. x.0.now) (λ x. x.1.now) result (next tokens.now) }
    ensures shorter { IfOk result (λ x. length tokens.now ≡ length x.1.now + 1) }
{
    match tokens.split_first() {
        None => Err(PartStop::Fault(0)),
        Some((token, rest)) => Ok((token, rest)),
    }
}

pub(crate) fn is_mark(mark: Mark, kind: &TokenKind) -> bool
    ensures { result ≡ is_mark mark kind.now }
{
    match kind {
        TokenKind::Mark(found) => *found == mark,
        TokenKind::Word(_) => false,
        TokenKind::Number(_) => false,
        TokenKind::Key(_) => false,
    }
}

/// Reads the symbol `mark`, and returns its place.
pub fn expect(mark: Mark, tokens: &[Token]) -> Result<(Span, &[Token]), PartStop>
    ensures value { Gives (λ x. x.0) (λ x. x.1.now) result (expect mark tokens.now) }
    ensures shorter { IfOk result (λ x. length x.1.now < length tokens.now) }
{
    let (token, rest) = next(tokens)?;
    if is_mark(mark, &token.kind) {
        Ok((token.span, rest))
    } else {
        Err(PartStop::Fault(tokens.len()))
    }
}

/// Reads an identifier.
#[inline(always)]
pub fn word(alloc: Global, tokens: &[Token]) -> Result<(Name, &[Token]), PartStop>
    ensures value { Gives (λ x. x.0) (λ x. x.1.now) result (word tokens.now) }
    ensures shorter { IfOk result (λ x. length x.1.now < length tokens.now) }
{
    let (token, rest) = next(tokens)?;
    match &token.kind {
        TokenKind::Word(name) => Ok((name.copy(alloc)?, rest)),
        TokenKind::Number(_) => Err(PartStop::Fault(tokens.len())),
        TokenKind::Key(_) => Err(PartStop::Fault(tokens.len())),
        TokenKind::Mark(_) => Err(PartStop::Fault(tokens.len())),
    }
}

/// Returns the type that a token names, if it names one.
fn type_of(kind: &TokenKind) -> Option<TypeName>
    ensures { result ≡ type_of kind.now }
{
    match kind {
        TokenKind::Key(key) => match key {
            Key::BoolWord => Some(TypeName::Bool),
            Key::IntWord => Some(TypeName::Int),
            Key::UIntWord => Some(TypeName::UInt),
            Key::URealWord => Some(TypeName::UReal),
            Key::EURealWord => Some(TypeName::EUReal),
            Key::RealWord => Some(TypeName::Real),
            _ => None,
        },
        TokenKind::Word(_) => None,
        TokenKind::Number(_) => None,
        TokenKind::Mark(_) => None,
    }
}

/// Reads the name of a type.
pub(crate) fn type_name(tokens: &[Token]) -> Result<(TypeName, &[Token]), PartStop>
    ensures value { Gives (λ x. x.0) (λ x. x.1.now) result (type_name tokens.now) }
    ensures shorter { IfOk result (λ x. length x.1.now < length tokens.now) }
{
    let (token, rest) = next(tokens)?;
    known(type_of(&token.kind), tokens, rest)
}

pub(crate) fn is_key(key: Key, kind: &TokenKind) -> bool
    ensures { result ≡ is_key key kind.now }
{
    match kind {
        TokenKind::Key(found) => *found == key,
        TokenKind::Word(_) => false,
        TokenKind::Number(_) => false,
        TokenKind::Mark(_) => false,
    }
}

/// Reads a keyword.
pub(crate) fn key_at(tokens: &[Token]) -> Result<(Key, &[Token]), PartStop>
    ensures value { Gives (λ x. x.0) (λ x. x.1.now) result (kind (by_key Some) tokens.now) }
    ensures shorter { IfOk result (λ x. length x.1.now < length tokens.now) }
{
    let (token, rest) = next(tokens)?;
    match &token.kind {
        TokenKind::Key(key) => Ok((*key, rest)),
        TokenKind::Word(_) => Err(PartStop::Fault(tokens.len())),
        TokenKind::Number(_) => Err(PartStop::Fault(tokens.len())),
        TokenKind::Mark(_) => Err(PartStop::Fault(tokens.len())),
    }
}

/// Returns what the first token of `tokens` holds and the tokens after it, or an error at this
/// token if it holds nothing.
pub(crate) fn known<'a, T>(
    said: Option<T>,
    tokens: &[Token],
    rest: &'a [Token],
) -> Result<(T, &'a [Token]), PartStop>
    ensures value { Gives (λ x. x.0) (λ x. x.1.now) result (given said tokens.now rest.now) }
    ensures rest { IfOk result (λ x. x.1.now ≡ rest.now) }
{
    match said {
        Some(said) => Ok((said, rest)),
        None => Err(PartStop::Fault(tokens.len())),
    }
}

/// Reads the keyword `key`, and returns its place.
pub fn expect_key(key: Key, tokens: &[Token]) -> Result<(Span, &[Token]), PartStop>
    ensures value { Gives (λ x. x.0) (λ x. x.1.now) result (sign (is_key key) tokens.now) }
    ensures shorter { IfOk result (λ x. length x.1.now < length tokens.now) }
{
    let (token, rest) = next(tokens)?;
    if is_key(key, &token.kind) {
        Ok((token.span, rest))
    } else {
        Err(PartStop::Fault(tokens.len()))
    }
}

/// Returns true if the first token is the symbol `mark`.
pub fn starts_mark(mark: Mark, tokens: &[Token]) -> bool
    ensures { result ≡ starts (is_mark mark) tokens.now }
{
    match tokens.split_first() {
        None => false,
        Some((token, _)) => is_mark(mark, &token.kind),
    }
}

/// Returns true if the first token is the keyword `key`.
pub fn starts_key(key: Key, tokens: &[Token]) -> bool
    ensures { result ≡ starts (is_key key) tokens.now }
{
    match tokens.split_first() {
        None => false,
        Some((token, _)) => is_key(key, &token.kind),
    }
}

fn is_word(name: &[u8], kind: &TokenKind) -> bool
    ensures { result ≡ is_word name.now kind.now }
{
    match kind {
        TokenKind::Word(found) => found.as_bytes() == name,
        TokenKind::Key(_) => false,
        TokenKind::Number(_) => false,
        TokenKind::Mark(_) => false,
    }
}

/// Reads the identifier `name`, and returns its place.
pub(crate) fn expect_word<'a>(
    name: &[u8],
    tokens: &'a [Token],
) -> Result<(Span, &'a [Token]), PartStop>
    ensures value { Gives (λ x. x.0) (λ x. x.1.now) result (sign (is_word name.now) tokens.now) }
    ensures shorter { IfOk result (λ x. length x.1.now < length tokens.now) }
{
    let (token, rest) = next(tokens)?;
    if is_word(name, &token.kind) {
        Ok((token.span, rest))
    } else {
        Err(PartStop::Fault(tokens.len()))
    }
}
