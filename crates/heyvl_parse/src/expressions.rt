//! The parser of expressions.

ghost use Rattle.heyvl_parse.specs.readers.ReadParts.{Full, Whole, bound, choice, climbed};
ghost use Rattle.heyvl_parse.specs.readers.ReadParts.{enclosed, end_of, operand, prefixed, reach};
ghost use Rattle.heyvl_parse.specs.readers.ReadParts.{reading, started};
ghost use Rattle.heyvl_parse.specs.readers.Results.{Gives};
ghost use Rattle.heyvl_syntax.specs.declared.tokens.Token.{Token};
ghost use Rattle.heyvl_syntax.specs.Expressions.{Expression, expression};
ghost use Rattle.std.specs.Prelude.{IfOk, List, length, ◌<◌, ◌≡◌, ◌≤◌, ◌+◌, ℕ};

use crate::leaves::{is_alone, leaf};
use crate::operators::{next_level, operator_within, ranks};
use crate::sequels::closed;
use crate::starts::{Start, key_start, mark_start, quantifier_at};
use crate::stops::PartStop;
use crate::tokens::{expect, next};
use crate::typed_names::typed_name;
use heyvl_places::Span;
use heyvl_syntax::{BinaryOp, Expr, Mark, Token, TokenKind, UnaryOp};
use std::alloc::{AllocError, Global};

/// The rank of `e1`. Only quantifiers bind looser.
const LOOSEST: u8 = 8;

/// Returns the place from the first byte of `start` to `end`.
fn reach(start: Span, end: u32) -> Span
    ensures { result ≡ reach start end }
{
    Span {
        from: start.from,
        to: end,
    }
}

/// Returns the end of the last token of `expr`.
fn end_of(expr: &Expr) -> u32
    ensures { result ≡ end_of (expression expr.now) }
{
    match expr {
        Expr::Number(_, span) => span.to,
        Expr::Truth(_, span) => span.to,
        Expr::Infinity(span) => span.to,
        Expr::Name(_, span) => span.to,
        Expr::Group(_, span) => span.to,
        Expr::Bracket(_, span) => span.to,
        Expr::Embed(_, span) => span.to,
        Expr::Unary(_, _, span) => span.to,
        Expr::Binary(_, _, right, _) => end_of(right),
        Expr::Choice(_, _, _, span) => span.to,
        Expr::Bound(_, _, _, _, span) => span.to,
    }
}

/// Reads an expression.
#[inline(never)]
pub fn whole(alloc: Global, tokens: &[Token]) -> Result<(Expr, &[Token]), PartStop>
    ensures value { (n : ℕ) → length tokens.now < n
        → Gives (λ x. expression x.0) (λ x. x.1.now) result (reading n Whole tokens.now) }
    ensures shorter { IfOk result (λ x. length x.1.now < length tokens.now) }
{
    if is_alone(tokens) {
        return leaf(alloc, tokens);
    }
    let (found, rest) = boxed(alloc, tokens)?;
    Ok((Box::into_inner(found), rest))
}

/// Reads an expression into a box, which keeps the stack of the recursive readers small.
#[cycle(expressions)]
#[inline(always)]
fn boxed(alloc: Global, tokens: &[Token]) -> Result<(Box<Expr>, &[Token]), PartStop>
    ensures value { (n : ℕ) → length tokens.now < n
        → Gives (λ x. expression x.0.value) (λ x. x.1.now) result (reading n Whole tokens.now) }
    ensures shorter { IfOk result (λ x. length x.1.now < length tokens.now) }
{
    match quantifier_at(tokens) {
        None => full(alloc, LOOSEST, tokens),
        Some((up, place, rest)) => bound(alloc, up, place, rest),
    }
}

/// Reads what follows the quantifier at `place`.
#[cycle(expressions)]
#[inline(never)]
fn bound(
    alloc: Global,
    up: bool,
    place: Span,
    tokens: &[Token],
) -> Result<(Box<Expr>, &[Token]), PartStop>
    ensures value { (n : ℕ) → length tokens.now < n
        → Gives (λ x. expression x.0.value) (λ x. x.1.now) result
        (bound (reading n) up place tokens.now) }
    ensures shorter { IfOk result (λ x. length x.1.now < length tokens.now) }
{
    let (typed, rest) = typed_name(alloc, tokens)?;
    let (typed, rest) = closed(typed, Mark::Dot, rest)?;
    let (inner, rest) = boxed(alloc, rest)?;
    let place = reach(place, end_of(&inner));
    let found = Expr::Bound(up, typed.0, typed.1, inner, place);
    Ok((found.boxed(alloc)?, rest))
}

/// Reads an expression of rank at most `rank` that no quantifier begins.
#[cycle(expressions)]
#[inline(never)]
fn full(alloc: Global, rank: u8, tokens: &[Token]) -> Result<(Box<Expr>, &[Token]), PartStop>
    ensures value { (n : ℕ) → length tokens.now < n
        → Gives (λ x. expression x.0.value) (λ x. x.1.now) result
        (reading n (Full rank) tokens.now) }
    ensures shorter { IfOk result (λ x. length x.1.now < length tokens.now) }
{
    let (first, rest) = operand(alloc, tokens)?;
    let first = first.boxed(alloc)?;
    climbed(alloc, rank, first, rest)
}

/// Reads the rest of an expression of rank at most `rank` that begins with the operand `first`,
/// rank by rank from the tightest.
#[cycle(expressions)]
#[inline(never)]
fn climbed(
    alloc: Global,
    rank: u8,
    first: Box<Expr>,
    tokens: &[Token],
) -> Result<(Box<Expr>, &[Token]), PartStop>
    ensures value { (n m : ℕ) → length tokens.now < n → length tokens.now < m
        → Gives (λ x. expression x.0.value) (λ x. x.1.now) result
        (climbed (reading n) (reading m) rank 1 (expression first.value) tokens.now) }
    ensures shorter { IfOk result (λ x. length x.1.now ≤ length tokens.now) }
{
    let mut left = first;
    let mut rest = tokens;
    let mut level = 1;
    'operators: while let Some((op, place, behind)) = operator_within(level, rank, rest) {
        let (right, behind) = full(alloc, ranks(op).right, behind)?;
        left = joined(alloc, op, left, right, place)?;
        rest = behind;
        level = next_level(op);
    }
    Ok((left, rest))
}

/// Builds the tree of an operator between its operands.
#[inline(never)]
fn joined(
    alloc: Global,
    op: BinaryOp,
    left: Box<Expr>,
    right: Box<Expr>,
    place: Span,
) -> Result<Box<Expr>, AllocError>
    ensures { IfOk result (λ both. expression both.value
        ≡ Expression.binary op (expression left.value) (expression right.value) place) }
{
    Expr::Binary(op, left, right, place).boxed(alloc)
}

/// Reads an operand: an atom, or a prefix operator and its operand.
#[cycle(expressions)]
#[inline(always)]
fn operand(alloc: Global, tokens: &[Token]) -> Result<(Expr, &[Token]), PartStop>
    ensures value { (n : ℕ) → length tokens.now < n
        → Gives (λ x. expression x.0) (λ x. x.1.now) result (reading n (Full 0) tokens.now) }
    ensures shorter { IfOk result (λ x. length x.1.now < length tokens.now) }
{
    let (token, rest) = next(tokens)?;
    match &token.kind {
        TokenKind::Word(name) => Ok((Expr::Name(name.copy(alloc)?, token.span), rest)),
        TokenKind::Number(number) => Ok((Expr::Number(*number, token.span), rest)),
        TokenKind::Key(key) => started(alloc, key_start(*key), token.span, rest),
        TokenKind::Mark(mark) => started(alloc, mark_start(*mark), token.span, rest),
    }
}

/// Reads what follows the keyword or symbol at `place`.
#[cycle(expressions)]
#[inline(always)]
fn started(
    alloc: Global,
    start: Start,
    place: Span,
    tokens: &[Token],
) -> Result<(Expr, &[Token]), PartStop>
    ensures value { (n : ℕ) → length tokens.now < n → (all : List Token)
        → length all ≡ length tokens.now + 1
        → Gives (λ x. expression x.0) (λ x. x.1.now) result
        (started (reading n) start place tokens.now all) }
    ensures shorter { IfOk result (λ x. length x.1.now ≤ length tokens.now) }
{
    match start {
        Start::Truth(truth) => Ok((Expr::Truth(truth, place), tokens)),
        Start::Infinity => Ok((Expr::Infinity(place), tokens)),
        Start::Group => {
            let (inner, close, rest) = enclosed(alloc, Mark::ParenRight, tokens)?;
            Ok((Expr::Group(inner, reach(place, close.to)), rest))
        }
        Start::Bracket => {
            let (inner, close, rest) = enclosed(alloc, Mark::BracketRight, tokens)?;
            Ok((Expr::Bracket(inner, reach(place, close.to)), rest))
        }
        Start::Embed => {
            let (_, rest) = expect(Mark::ParenLeft, tokens)?;
            let (inner, close, rest) = enclosed(alloc, Mark::ParenRight, rest)?;
            Ok((Expr::Embed(inner, reach(place, close.to)), rest))
        }
        Start::Prefix(op) => prefixed(alloc, op, place, tokens),
        Start::Choice => choice(alloc, place, tokens),
        Start::Other => Err(PartStop::Fault(tokens.len() + 1)),
    }
}

/// Reads an expression and the symbol `close`, and returns the place of `close` too.
#[cycle(expressions)]
#[inline(always)]
fn enclosed(
    alloc: Global,
    close: Mark,
    tokens: &[Token],
) -> Result<(Box<Expr>, Span, &[Token]), PartStop>
    ensures value { (n : ℕ) → length tokens.now < n
        → Gives (λ x. (expression x.0.value, x.1)) (λ x. x.2.now) result
        (enclosed (reading n) close tokens.now) }
    ensures shorter { IfOk result (λ x. length x.2.now < length tokens.now) }
{
    let (inner, rest) = boxed(alloc, tokens)?;
    let (place, rest) = expect(close, rest)?;
    Ok((inner, place, rest))
}

/// Reads the operand of the prefix operator at `place`.
#[cycle(expressions)]
#[inline(never)]
fn prefixed(
    alloc: Global,
    op: UnaryOp,
    place: Span,
    tokens: &[Token],
) -> Result<(Expr, &[Token]), PartStop>
    ensures value { (n : ℕ) → length tokens.now < n
        → Gives (λ x. expression x.0) (λ x. x.1.now) result
        (prefixed (reading n) op place tokens.now) }
    ensures shorter { IfOk result (λ x. length x.1.now < length tokens.now) }
{
    let (inner, rest) = operand(alloc, tokens)?;
    let place = reach(place, end_of(&inner));
    Ok((Expr::Unary(op, inner.boxed(alloc)?, place), rest))
}

/// Reads the parts of the `ite` at `place`.
#[cycle(expressions)]
#[inline(never)]
fn choice(alloc: Global, place: Span, tokens: &[Token]) -> Result<(Expr, &[Token]), PartStop>
    ensures value { (n : ℕ) → length tokens.now < n
        → Gives (λ x. expression x.0) (λ x. x.1.now) result (choice (reading n) place tokens.now) }
    ensures shorter { IfOk result (λ x. length x.1.now < length tokens.now) }
{
    let (_, rest) = expect(Mark::ParenLeft, tokens)?;
    let (test, _, rest) = enclosed(alloc, Mark::Comma, rest)?;
    let (yes, _, rest) = enclosed(alloc, Mark::Comma, rest)?;
    let (other, close, rest) = enclosed(alloc, Mark::ParenRight, rest)?;
    Ok((Expr::Choice(test, yes, other, reach(place, close.to)), rest))
}
