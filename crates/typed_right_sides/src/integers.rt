//! Integer literals, ranges of integers and numbers of copies.

ghost use Rattle.heyvl_places.specs.declared.spans.Span.{Span as Place};
ghost use Rattle.heyvl_syntax.specs.Expressions.{Expression, expression};
ghost use Rattle.heyvl_syntax.specs.declared.operators.UnaryOp.{UnaryOp as Operator};
ghost use Rattle.static_rules.specs.Literals.{copies, ends_wrong, integer, is_negative};
ghost use Rattle.static_rules.specs.Literals.{whole_value};
ghost use Rattle.std.specs.Int.Signed.{le_z};
ghost use Rattle.std.specs.Prelude.{◌&&◌, ◌-ℤ◌, ◌<◌, ◌^◌, ◌≡◌, IfSome, pos, true, unsigned_abs};

use heyvl_syntax::{Expr, Lit, UnaryOp};
use typed_expressions::{literal_value, number};

/// The largest number of copies of a loop's body.
const MAX_COPIES: i128 = 16;

/// The largest difference between the ends of a range of integers.
const MAX_STEPS: i128 = 255;

/// Returns the integer that a literal is, if it is one.
fn whole_value(literal: Lit) -> Option<i128>
    ensures value { result ≡ whole_value literal }
    ensures natural { IfSome result (λ whole. le_z (pos 0) whole ≡ true) }
{
    let value = literal_value(literal)?;
    if value.den() == 1 {
        Some(value.num())
    } else {
        None
    }
}

/// Returns the integer `-e`, if `e` is an integer literal without a minus.
fn negative(e: &Expr) -> Option<i128>
    ensures value { (s : Place)
        → result ≡ integer (Expression.unary Operator.Minus (expression e.now) s) }
    ensures small { IfSome result (λ whole. unsigned_abs whole < 2 ^ 127) }
{
    let whole = whole_value(number(e)?)?;
    Some(-whole)
}

/// Returns the integer literal that an expression is, if it is one.
pub(crate) fn integer(e: &Expr) -> Option<i128>
    ensures value { result ≡ integer (expression e.now) }
    ensures small { IfSome result (λ whole. unsigned_abs whole < 2 ^ 127) }
{
    match e {
        Expr::Number(literal, _) => whole_value(*literal),
        Expr::Unary(UnaryOp::Minus, inner, _) => negative(inner),
        Expr::Unary(UnaryOp::Not, _, _)
        | Expr::Unary(UnaryOp::Tilde, _, _)
        | Expr::Truth(_, _)
        | Expr::Infinity(_)
        | Expr::Name(_, _)
        | Expr::Group(_, _)
        | Expr::Bracket(_, _)
        | Expr::Embed(_, _)
        | Expr::Binary(_, _, _, _)
        | Expr::Choice(_, _, _, _)
        | Expr::Bound(_, _, _, _, _) => None,
    }
}

/// Returns true if there are 1 to 256 integers from `low` to `high`.
fn is_range(low: i128, high: i128) -> bool
    ensures { result ≡ le_z low high && le_z (high -ℤ low) (pos 255) }
{
    match high.checked_sub(low) {
        Some(steps) => steps >= 0 && steps <= MAX_STEPS,
        None => false,
    }
}

/// Returns true unless there are 1 to 256 integers from `low` to `high`.
pub(crate) fn ends_wrong(low: Option<i128>, high: Option<i128>) -> bool
    ensures { result ≡ ends_wrong low high }
{
    match (low, high) {
        (Some(low), Some(high)) => !is_range(low, high),
        (Some(_), None) => true,
        (None, _) => true,
    }
}

/// Returns true if the lower end is negative.
pub(crate) fn is_negative(low: Option<i128>) -> bool
    ensures { result ≡ is_negative low }
{
    match low {
        Some(low) => low < 0,
        None => false,
    }
}

/// Returns the number of copies of a loop's body: an integer literal from 1 to 16.
pub(crate) fn copies(e: &Expr) -> Option<u32>
    ensures { result ≡ copies (expression e.now) }
{
    let whole = whole_value(number(e)?)?;
    if whole >= 1 && whole <= MAX_COPIES {
        Some(whole as u32)
    } else {
        None
    }
}
