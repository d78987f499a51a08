//! Weights: expressions as probabilities or steps.

ghost use Rattle.heyvl_num.specs.Rational.{leqʳ, oneʳ, ratio, zeroʳ, ◌*ʳ◌};
ghost use Rattle.heyvl_places.specs.declared.spans.Span.{Span as Place};
ghost use Rattle.heyvl_syntax.specs.Expressions.{Expression, expression};
ghost use Rattle.heyvl_syntax.specs.declared.operators.BinaryOp.{BinaryOp as Operator};
ghost use Rattle.static_rules.specs.Literals.{is_over_zero, is_probability, is_step, is_too_wide};
ghost use Rattle.static_rules.specs.Literals.{is_usable, is_weight_literal, weight};
ghost use Rattle.static_rules.specs.Literals.{weight_of_quotient, weight_of_value, weight_value};
ghost use Rattle.std.specs.Int.Signed.{le_z};
ghost use Rattle.std.specs.Prelude.{◌&&◌, ◌≡◌, false, if◌then◌else◌, pos, true, unsigned_abs};
ghost use Rattle.typed_expressions.specs.LiteralValues.{is_written, literal_value};

use heyvl_num::Frac;
use heyvl_syntax::{BinaryOp, Expr, Lit};
use static_rules::Weight;
use typed_expressions::{inverse, literal_value, number};

/// The least number above each numerator and denominator that a weight may have.
const LIMIT: u128 = 1 << 62;

/// Returns true if the numerator or the denominator in lowest terms is 2^62 or more.
pub(crate) fn is_too_wide(value: Frac) -> bool
    ensures { result ≡ is_too_wide value }
{
    value.num().unsigned_abs() >= LIMIT || value.den().unsigned_abs() >= LIMIT
}

/// Returns the weight with this value.
fn weight_of_value(value: Frac) -> Weight
    ensures { result ≡ weight_of_value value }
{
    if is_too_wide(value) {
        Weight::TooWide
    } else {
        Weight::Value(value)
    }
}

/// Returns the fraction `num / den`.
pub(crate) fn fraction(num: i128, den: i128) -> Frac
    requires natural { le_z (pos 0) num ≡ true }
    requires positive { le_z (pos 1) den ≡ true }
    ensures { result ≡ ratio num (unsigned_abs den) }
{
    Frac::new(num, den).unwrap()
}

/// Returns the product of two fractions as a weight. The numerator of each is reduced with the
/// denominator of the other, so that a product that overflows is too wide in lowest terms.
fn weight_of_product(left: Frac, right: Frac) -> Weight
    requires left { le_z (pos 0) left.num ≡ true }
    requires right { le_z (pos 0) right.num ≡ true }
    ensures { result ≡ weight_of_value (left *ʳ right) }
{
    let first = fraction(left.num(), right.den());
    let second = fraction(right.num(), left.den());
    match first.mul(&second) {
        Some(product) => weight_of_value(product),
        None => Weight::TooWide,
    }
}

/// Returns one literal divided by another as a weight.
fn weight_of_quotient(dividend: Lit, divisor: Lit) -> Weight
    ensures { result ≡ if is_written dividend && is_written divisor
        then weight_of_quotient dividend divisor else Weight.NotLiteral }
{
    match (literal_value(dividend), literal_value(divisor)) {
        (Some(value), Some(_)) => match inverse(divisor) {
            Some(factor) => weight_of_product(value, factor),
            None => Weight::OverZero,
        },
        (Some(_), None) => Weight::NotLiteral,
        (None, _) => Weight::NotLiteral,
    }
}

/// Returns a number literal as a weight.
fn weight_of_literal(literal: Lit) -> Weight
    ensures { result ≡ if is_written literal then weight_of_value (literal_value literal)
        else Weight.NotLiteral }
{
    match literal_value(literal) {
        Some(value) => weight_of_value(value),
        None => Weight::NotLiteral,
    }
}

/// Returns one expression divided by another as a weight.
fn weight_of_division(left: &Expr, right: &Expr) -> Weight
    ensures { (s : Place) → result
        ≡ weight (Expression.binary Operator.Slash (expression left.now) (expression right.now) s) }
{
    match (number(left), number(right)) {
        (Some(dividend), Some(divisor)) => weight_of_quotient(dividend, divisor),
        (Some(_), None) => Weight::NotLiteral,
        (None, _) => Weight::NotLiteral,
    }
}

/// Returns an operator between two expressions as a weight.
fn weight_of_operator(op: BinaryOp, left: &Expr, right: &Expr) -> Weight
    ensures { (s : Place) → result
        ≡ weight (Expression.binary op (expression left.now) (expression right.now) s) }
{
    match op {
        BinaryOp::Slash => weight_of_division(left, right),
        BinaryOp::Imply
        | BinaryOp::CoImply
        | BinaryOp::Cup
        | BinaryOp::Cap
        | BinaryOp::Or
        | BinaryOp::And
        | BinaryOp::Same
        | BinaryOp::Differ
        | BinaryOp::Less
        | BinaryOp::AtMost
        | BinaryOp::More
        | BinaryOp::AtLeast
        | BinaryOp::Plus
        | BinaryOp::Minus
        | BinaryOp::Star => Weight::NotLiteral,
    }
}

/// Returns an expression as a weight.
pub(crate) fn weight_of(e: &Expr) -> Weight
    ensures { result ≡ weight (expression e.now) }
{
    match e {
        Expr::Number(literal, _) => weight_of_literal(*literal),
        Expr::Binary(op, left, right, _) => weight_of_operator(*op, left, right),
        Expr::Truth(_, _)
        | Expr::Infinity(_)
        | Expr::Name(_, _)
        | Expr::Group(_, _)
        | Expr::Bracket(_, _)
        | Expr::Embed(_, _)
        | Expr::Unary(_, _, _)
        | Expr::Choice(_, _, _, _)
        | Expr::Bound(_, _, _, _, _) => Weight::NotLiteral,
    }
}

/// Returns true for a number literal or one divided by another.
pub(crate) fn is_weight_literal(weight: Weight) -> bool
    ensures { result ≡ is_weight_literal weight }
{
    match weight {
        Weight::NotLiteral => false,
        Weight::OverZero => true,
        Weight::TooWide => true,
        Weight::Value(_) => true,
    }
}

/// Returns true if the divisor is 0.
pub(crate) fn is_over_zero(weight: Weight) -> bool
    ensures { result ≡ is_over_zero weight }
{
    match weight {
        Weight::NotLiteral => false,
        Weight::OverZero => true,
        Weight::TooWide => false,
        Weight::Value(_) => false,
    }
}

/// Returns true if a fraction is at least 1.
pub(crate) fn at_least_one(value: Frac) -> bool
    ensures { result ≡ leqʳ oneʳ value }
{
    value.den() <= value.num()
}

/// Returns true if a fraction is at most 1.
pub(crate) fn at_most_one(value: Frac) -> bool
    ensures { result ≡ leqʳ value oneʳ }
{
    value.num() <= value.den()
}

/// Returns true if a fraction is at most 0.
fn at_most_zero(value: Frac) -> bool
    ensures { result ≡ leqʳ value zeroʳ }
{
    value.num() <= 0
}

/// Returns true for a weight literal that is not too wide. A divisor 0 breaks another rule.
pub(crate) fn is_usable(weight: Weight) -> bool
    ensures { result ≡ is_usable weight }
{
    match weight {
        Weight::NotLiteral => false,
        Weight::OverZero => true,
        Weight::TooWide => false,
        Weight::Value(_) => true,
    }
}

/// Returns true for a weight literal from 0 to 1. A divisor 0 breaks another rule.
pub(crate) fn is_probability(weight: Weight) -> bool
    ensures { result ≡ is_probability weight }
{
    match weight {
        Weight::NotLiteral => false,
        Weight::OverZero => true,
        Weight::TooWide => false,
        Weight::Value(value) => at_most_one(value),
    }
}

/// Returns true for a weight literal above 0. A divisor 0 breaks another rule.
pub(crate) fn is_step(weight: Weight) -> bool
    ensures { result ≡ is_step weight }
{
    match weight {
        Weight::NotLiteral => false,
        Weight::OverZero => true,
        Weight::TooWide => false,
        Weight::Value(value) => !at_most_zero(value),
    }
}

/// Returns the value of a weight, or 0 if it has none.
pub(crate) fn weight_value(weight: Weight) -> Frac
    ensures { result ≡ weight_value weight }
{
    match weight {
        Weight::NotLiteral => Frac::zero(),
        Weight::OverZero => Frac::zero(),
        Weight::TooWide => Frac::zero(),
        Weight::Value(value) => value,
    }
}
