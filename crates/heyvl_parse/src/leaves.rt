//! The parser of expressions that are one token.

ghost use Rattle.heyvl_parse.specs.readers.Combinators.{starts};
ghost use Rattle.heyvl_parse.specs.internal.Leaves.{goes_on, is_alone, is_leaf, leaf};
ghost use Rattle.heyvl_parse.specs.readers.Results.{Gives};
ghost use Rattle.heyvl_syntax.specs.Expressions.{expression};
ghost use Rattle.std.specs.Prelude.{IfOk, length, ◌<◌, ◌≡◌};

use crate::operators::operator_of;
use crate::stops::PartStop;
use crate::tokens::{is_mark, next};
use heyvl_syntax::{Expr, Mark, Token, TokenKind};
use std::alloc::Global;

/// Returns true for an identifier or a number.
fn is_leaf(kind: &TokenKind) -> bool
    ensures { result ≡ is_leaf kind.now }
{
    match kind {
        TokenKind::Word(_) => true,
        TokenKind::Number(_) => true,
        TokenKind::Key(_) => false,
        TokenKind::Mark(_) => false,
    }
}

/// Returns true for a token that continues an expression after an identifier or a number: an
/// operator, or the `(` of a call.
fn goes_on(kind: &TokenKind) -> bool
    ensures { result ≡ goes_on kind.now }
{
    is_mark(Mark::ParenLeft, kind) || operator_of(kind).is_some()
}

fn starts_further(tokens: &[Token]) -> bool
    ensures { result ≡ starts goes_on tokens.now }
{
    match tokens.split_first() {
        None => false,
        Some((token, _)) => goes_on(&token.kind),
    }
}

/// Returns true if the first token is an identifier or a number that the next token does not
/// continue.
pub(crate) fn is_alone(tokens: &[Token]) -> bool
    ensures { result ≡ is_alone tokens.now }
{
    match tokens.split_first() {
        None => false,
        Some((token, rest)) => is_leaf(&token.kind) && !starts_further(rest),
    }
}

/// Reads an identifier or a number.
#[inline(always)]
pub(crate) fn leaf(alloc: Global, tokens: &[Token]) -> Result<(Expr, &[Token]), PartStop>
    ensures value { Gives (λ x. expression x.0) (λ x. x.1.now) result (leaf tokens.now) }
    ensures shorter { IfOk result (λ x. length x.1.now < length tokens.now) }
{
    let (token, rest) = next(tokens)?;
    match &token.kind {
        TokenKind::Word(name) => Ok((Expr::Name(name.copy(alloc)?, token.span), rest)),
        TokenKind::Number(number) => Ok((Expr::Number(*number, token.span), rest)),
        TokenKind::Key(_) => Err(PartStop::Fault(tokens.len())),
        TokenKind::Mark(_) => Err(PartStop::Fault(tokens.len())),
    }
}
