//! The keywords and symbols that begin an expression.

ghost use Rattle.heyvl_parse.specs.readers.ReadParts.{key_start, mark_start, quantifier_at};
ghost use Rattle.heyvl_parse.specs.readers.ReadParts.{quantifier_of};
ghost use Rattle.std.specs.Prelude.{IfSome, MatchOption, None, Some, length, ◌<◌, ◌≡◌};

use heyvl_places::Span;
use heyvl_syntax::{Key, Mark, Token, TokenKind, UnaryOp};

/// What a keyword or symbol begins.
#[derive(Clone, Copy)]
pub(crate) enum Start {
    /// `true` or `false`
    Truth(bool),
    /// `\infty`
    Infinity,
    /// `(`
    Group,
    /// `[`
    Bracket,
    /// `?`
    Embed,
    /// `!`, `-` or `~`
    Prefix(UnaryOp),
    /// `ite`
    Choice,
    /// No operand.
    Other,
}

pub(crate) fn key_start(key: Key) -> Start
    ensures { result ≡ key_start key }
{
    match key {
        Key::TrueWord => Start::Truth(true),
        Key::FalseWord => Start::Truth(false),
        Key::Infty => Start::Infinity,
        Key::Ite => Start::Choice,
        _ => Start::Other,
    }
}

pub(crate) fn mark_start(mark: Mark) -> Start
    ensures { result ≡ mark_start mark }
{
    match mark {
        Mark::ParenLeft => Start::Group,
        Mark::BracketLeft => Start::Bracket,
        Mark::Question => Start::Embed,
        Mark::Bang => Start::Prefix(UnaryOp::Not),
        Mark::Minus => Start::Prefix(UnaryOp::Minus),
        Mark::Tilde => Start::Prefix(UnaryOp::Tilde),
        _ => Start::Other,
    }
}

/// Returns true for `sup`, false for `inf`, and nothing for any other token.
fn quantifier_of(kind: &TokenKind) -> Option<bool>
    ensures { result ≡ quantifier_of kind.now }
{
    match kind {
        TokenKind::Key(key) => match key {
            Key::Sup => Some(true),
            Key::Inf => Some(false),
            _ => None,
        },
        TokenKind::Word(_) => None,
        TokenKind::Number(_) => None,
        TokenKind::Mark(_) => None,
    }
}

/// Reads `sup` or `inf`, if the first token is one, and returns its place too. The Boolean is true
/// for `sup`.
pub(crate) fn quantifier_at(tokens: &[Token]) -> Option<(bool, Span, &[Token])>
    ensures value { MatchOption result (quantifier_at tokens.now ≡ None)
        (λ x. quantifier_at tokens.now ≡ Some (x.0, x.1, x.2.now)) }
    ensures shorter { IfSome result (λ x. length x.2.now < length tokens.now) }
{
    let (token, rest) = tokens.split_first()?;
    let up = quantifier_of(&token.kind)?;
    Some((up, token.span, rest))
}
