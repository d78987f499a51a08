//! The parser of right sides.

ghost use Rattle.heyvl_parse.specs.readers.Combinators.{lead, list, trail};
ghost use Rattle.heyvl_parse.specs.readers.ReadParts.{expr, is_mark};
ghost use Rattle.heyvl_parse.specs.readers.Results.{Gives};
ghost use Rattle.heyvl_parse.specs.internal.Rights.{call, choose, enclosed_expr, flip, is_a_word};
ghost use Rattle.heyvl_parse.specs.internal.Rights.{is_call, key_right, kind_right, no_call, right};
ghost use Rattle.heyvl_parse.specs.internal.Rights.{right_start, two, unif, weighted, weights};
ghost use Rattle.heyvl_syntax.specs.Expressions.{expression, expressions};
ghost use Rattle.heyvl_syntax.specs.Statements.{choices, right_side};
ghost use Rattle.heyvl_syntax.specs.declared.marks.Mark.TheVariants as marks;
ghost use Rattle.std.specs.Prelude.{IfOk, length, ◌<◌, ◌≡◌, ℕ};

use crate::expressions::whole;
use crate::lists::arguments;
use crate::sequels::{beside, closed};
use crate::stops::PartStop;
use crate::tokens::{expect, expect_key, starts_mark, word};
use heyvl_places::Name;
use heyvl_syntax::{Expr, Key, Mark, Right, Token, TokenKind};
use std::alloc::Global;

/// The kind of right side that a token begins.
#[derive(Clone, Copy)]
pub(crate) enum RightStart {
    /// `flip`
    Flip,
    /// `unif`
    Unif,
    /// `choose`
    Choose,
    /// Any other token: an expression.
    Plain,
}

fn is_a_word(kind: &TokenKind) -> bool
    ensures { result ≡ is_a_word kind.now }
{
    match kind {
        TokenKind::Word(_) => true,
        TokenKind::Key(_) => false,
        TokenKind::Number(_) => false,
        TokenKind::Mark(_) => false,
    }
}

/// Returns true if the tokens begin with an identifier and `(`.
pub(crate) fn is_call(tokens: &[Token]) -> bool
    ensures { result ≡ is_call tokens.now }
{
    match tokens.split_first() {
        None => false,
        Some((token, rest)) => is_a_word(&token.kind) && starts_mark(Mark::ParenLeft, rest),
    }
}

fn key_right(key: Key) -> RightStart
    ensures { result ≡ key_right key }
{
    match key {
        Key::Flip => RightStart::Flip,
        Key::Unif => RightStart::Unif,
        Key::Choose => RightStart::Choose,
        _ => RightStart::Plain,
    }
}

fn kind_right(kind: &TokenKind) -> RightStart
    ensures { result ≡ kind_right kind.now }
{
    match kind {
        TokenKind::Key(key) => key_right(*key),
        TokenKind::Word(_) => RightStart::Plain,
        TokenKind::Number(_) => RightStart::Plain,
        TokenKind::Mark(_) => RightStart::Plain,
    }
}

fn right_start(tokens: &[Token]) -> RightStart
    ensures { result ≡ right_start tokens.now }
{
    match tokens.split_first() {
        None => RightStart::Plain,
        Some((token, _)) => kind_right(&token.kind),
    }
}

/// Reads a call: a name, and arguments with their parentheses.
pub(crate) fn call(
    alloc: Global,
    tokens: &[Token],
) -> Result<((Name, Vec<Expr>), &[Token]), PartStop>
    ensures value { (n : ℕ) → length tokens.now < n
        → Gives (λ x. (x.0.0, expressions x.0.1.items)) (λ x. x.1.now) result (call n tokens.now) }
    ensures shorter { IfOk result (λ x. length x.1.now < length tokens.now) }
{
    let (name, rest) = word(alloc, tokens)?;
    beside(name, arguments(alloc, rest))
}

/// Reads an expression and the symbol `mark`.
fn expr_before(alloc: Global, mark: Mark, tokens: &[Token]) -> Result<(Expr, &[Token]), PartStop>
    ensures value { (n : ℕ) → length tokens.now < n
        → Gives (λ x. expression x.0) (λ x. x.1.now) result
        (trail (expr n) (is_mark mark) tokens.now) }
    ensures shorter { IfOk result (λ x. length x.1.now < length tokens.now) }
{
    let (found, rest) = whole(alloc, tokens)?;
    closed(found, mark, rest)
}

/// Reads an expression in parentheses.
pub(crate) fn enclosed_expr(alloc: Global, tokens: &[Token]) -> Result<(Expr, &[Token]), PartStop>
    ensures value { (n : ℕ) → length tokens.now < n
        → Gives (λ x. expression x.0) (λ x. x.1.now) result (enclosed_expr n tokens.now) }
    ensures shorter { IfOk result (λ x. length x.1.now < length tokens.now) }
{
    let (_, rest) = expect(Mark::ParenLeft, tokens)?;
    expr_before(alloc, Mark::ParenRight, rest)
}

/// Reads two expressions in parentheses, with `,` between them.
pub(crate) fn two(alloc: Global, tokens: &[Token]) -> Result<((Expr, Expr), &[Token]), PartStop>
    ensures value { (n : ℕ) → length tokens.now < n
        → Gives (λ x. (expression x.0.0, expression x.0.1)) (λ x. x.1.now) result
        (two n tokens.now) }
    ensures shorter { IfOk result (λ x. length x.1.now < length tokens.now) }
{
    let (_, rest) = expect(Mark::ParenLeft, tokens)?;
    let (first, rest) = expr_before(alloc, Mark::Comma, rest)?;
    beside(first, expr_before(alloc, Mark::ParenRight, rest))
}

/// Reads a weight, `:` and a value.
fn weighted(alloc: Global, tokens: &[Token]) -> Result<((Expr, Expr), &[Token]), PartStop>
    ensures value { (n : ℕ) → length tokens.now < n
        → Gives (λ x. (expression x.0.0, expression x.0.1)) (λ x. x.1.now) result
        (weighted n tokens.now) }
    ensures shorter { IfOk result (λ x. length x.1.now < length tokens.now) }
{
    let (weight, rest) = expr_before(alloc, Mark::Colon, tokens)?;
    beside(weight, whole(alloc, rest))
}

/// Reads a `,` and a weighted value.
fn further_weighted(alloc: Global, tokens: &[Token]) -> Result<((Expr, Expr), &[Token]), PartStop>
    ensures value { (n : ℕ) → length tokens.now < n
        → Gives (λ x. (expression x.0.0, expression x.0.1)) (λ x. x.1.now) result
        (lead (is_mark marks.Comma) (weighted n) tokens.now) }
    ensures shorter { IfOk result (λ x. length x.1.now < length tokens.now) }
{
    let (_, rest) = expect(Mark::Comma, tokens)?;
    weighted(alloc, rest)
}

/// Reads one or more weighted values with `,` between them.
fn all_weighted(alloc: Global, tokens: &[Token]) -> Result<(Vec<(Expr, Expr)>, &[Token]), PartStop>
    ensures value { (n : ℕ) → length tokens.now < n
        → Gives (λ x. choices x.0.items) (λ x. x.1.now) result (list (weighted n) n tokens.now) }
    ensures shorter { IfOk result (λ x. length x.1.now < length tokens.now) }
{
    let (first, mut rest) = weighted(alloc, tokens)?;
    let mut found = Vec::new(alloc);
    found.push(first)?;
    'items: while starts_mark(Mark::Comma, rest) {
        let (one, behind) = further_weighted(alloc, rest)?;
        found.push(one)?;
        rest = behind;
    }
    Ok((found, rest))
}

/// Reads weighted values in braces.
fn weights(alloc: Global, tokens: &[Token]) -> Result<(Vec<(Expr, Expr)>, &[Token]), PartStop>
    ensures value { (n : ℕ) → length tokens.now < n
        → Gives (λ x. choices x.0.items) (λ x. x.1.now) result (weights n tokens.now) }
    ensures shorter { IfOk result (λ x. length x.1.now < length tokens.now) }
{
    let (_, rest) = expect(Mark::BraceLeft, tokens)?;
    let (parts, rest) = all_weighted(alloc, rest)?;
    closed(parts, Mark::BraceRight, rest)
}

/// Reads `flip` and a probability in parentheses.
fn flip(alloc: Global, tokens: &[Token]) -> Result<(Right, &[Token]), PartStop>
    ensures value { (n : ℕ) → length tokens.now < n
        → Gives (λ x. right_side x.0) (λ x. x.1.now) result (flip n tokens.now) }
    ensures shorter { IfOk result (λ x. length x.1.now < length tokens.now) }
{
    let (_, rest) = expect_key(Key::Flip, tokens)?;
    let (probability, rest) = enclosed_expr(alloc, rest)?;
    Ok((Right::Flip(probability), rest))
}

/// Reads `unif` and its two ends in parentheses.
fn unif(alloc: Global, tokens: &[Token]) -> Result<(Right, &[Token]), PartStop>
    ensures value { (n : ℕ) → length tokens.now < n
        → Gives (λ x. right_side x.0) (λ x. x.1.now) result (unif n tokens.now) }
    ensures shorter { IfOk result (λ x. length x.1.now < length tokens.now) }
{
    let (_, rest) = expect_key(Key::Unif, tokens)?;
    let (ends, rest) = two(alloc, rest)?;
    Ok((Right::Unif(ends.0, ends.1), rest))
}

/// Reads `choose` and weighted values in braces.
fn choose(alloc: Global, tokens: &[Token]) -> Result<(Right, &[Token]), PartStop>
    ensures value { (n : ℕ) → length tokens.now < n
        → Gives (λ x. right_side x.0) (λ x. x.1.now) result (choose n tokens.now) }
    ensures shorter { IfOk result (λ x. length x.1.now < length tokens.now) }
{
    let (_, rest) = expect_key(Key::Choose, tokens)?;
    let (parts, rest) = weights(alloc, rest)?;
    Ok((Right::Choose(parts), rest))
}

/// Reads a right side that is not a call.
fn no_call(alloc: Global, tokens: &[Token]) -> Result<(Right, &[Token]), PartStop>
    ensures value { (n : ℕ) → length tokens.now < n
        → Gives (λ x. right_side x.0) (λ x. x.1.now) result (no_call n tokens.now) }
    ensures shorter { IfOk result (λ x. length x.1.now < length tokens.now) }
{
    match right_start(tokens) {
        RightStart::Flip => flip(alloc, tokens),
        RightStart::Unif => unif(alloc, tokens),
        RightStart::Choose => choose(alloc, tokens),
        RightStart::Plain => {
            let (value, rest) = whole(alloc, tokens)?;
            Ok((Right::Plain(value), rest))
        }
    }
}

/// Reads a right side. An identifier with `(` after it begins a call.
#[inline(never)]
pub(crate) fn right(alloc: Global, tokens: &[Token]) -> Result<(Right, &[Token]), PartStop>
    ensures value { (n : ℕ) → length tokens.now < n
        → Gives (λ x. right_side x.0) (λ x. x.1.now) result (right n tokens.now) }
    ensures shorter { IfOk result (λ x. length x.1.now < length tokens.now) }
{
    if is_call(tokens) {
        let (made, rest) = call(alloc, tokens)?;
        return Ok((Right::Call(made.0, made.1), rest));
    }
    no_call(alloc, tokens)
}
