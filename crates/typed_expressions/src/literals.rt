//! Number literals.

ghost use Rattle.heyvl_syntax.specs.Expressions.{expression};
ghost use Rattle.heyvl_num.specs.Rational.{ratio};
ghost use Rattle.typed_expressions.specs.LiteralValues.{is_written, literal_value};
ghost use Rattle.typed_expressions.specs.Views.{literal_of};
ghost use Rattle.typed_expressions.specs.Table.{divisor, inverse};
ghost use Rattle.std.specs.Int.Signed.{le_z};
ghost use Rattle.std.specs.Prelude.{◌≡◌, ◌^◌, ◌≤◌, None, Some, if◌then◌else◌, pos, true};
ghost use Rattle.std.specs.Prelude.{unsigned_abs};

use heyvl_num::Frac;
use heyvl_syntax::{Expr, Lit};

/// The largest number of digits after the point.
const MAX_PLACES: u8 = 38;

/// Returns 10 to the power of `places`.
fn power_of_ten(places: u8) -> i128
    requires { places ≤ 38 }
    ensures { result ≡ pos (10 ^ places) }
{
    10_i128.pow(u32::from(places))
}

/// Returns `digits` divided by 10 to the power of `places`.
fn fraction(digits: i128, places: u8) -> Option<Frac>
    requires natural { le_z (pos 0) digits ≡ true }
    requires short { places ≤ 38 }
    ensures { result ≡ Some (ratio digits (10 ^ places)) }
{
    Frac::new(digits, power_of_ten(places))
}

/// Returns 10 to the power of `places` divided by `digits`.
fn inverse_fraction(digits: i128, places: u8) -> Option<Frac>
    requires positive { le_z (pos 1) digits ≡ true }
    requires short { places ≤ 38 }
    ensures { result ≡ Some (ratio (pos (10 ^ places)) (unsigned_abs digits)) }
{
    Frac::new(power_of_ten(places), digits)
}

/// Returns the value of a literal, or `None` if no text can spell it.
pub fn literal_value(number: Lit) -> Option<Frac>
    ensures { result ≡ if is_written number then Some (literal_value number) else None }
{
    if number.digits >= 0 && number.places <= MAX_PLACES {
        fraction(number.digits, number.places)
    } else {
        None
    }
}

/// Returns one divided by a number literal, or `None` for a literal that is 0 and for every other
/// expression.
pub(crate) fn divisor(e: &Expr) -> Option<Frac>
    ensures { result ≡ divisor (expression e.now) }
{
    match e {
        Expr::Number(number, _) => inverse(*number),
        Expr::Truth(_, _)
        | Expr::Infinity(_)
        | Expr::Name(_, _)
        | Expr::Group(_, _)
        | Expr::Bracket(_, _)
        | Expr::Embed(_, _)
        | Expr::Unary(_, _, _)
        | Expr::Binary(_, _, _, _)
        | Expr::Choice(_, _, _, _)
        | Expr::Bound(_, _, _, _, _) => None,
    }
}

/// Returns the number literal that an expression is, if it is one.
pub fn number(e: &Expr) -> Option<Lit>
    ensures { result ≡ literal_of (expression e.now) }
{
    match e {
        Expr::Number(literal, _) => Some(*literal),
        Expr::Truth(_, _)
        | Expr::Infinity(_)
        | Expr::Name(_, _)
        | Expr::Group(_, _)
        | Expr::Bracket(_, _)
        | Expr::Embed(_, _)
        | Expr::Unary(_, _, _)
        | Expr::Binary(_, _, _, _)
        | Expr::Choice(_, _, _, _)
        | Expr::Bound(_, _, _, _, _) => None,
    }
}

/// Returns one divided by a literal, or `None` for a literal that is 0 or that no text can spell.
pub fn inverse(number: Lit) -> Option<Frac>
    ensures { result ≡ inverse number }
{
    if number.digits >= 1 && number.places <= MAX_PLACES {
        inverse_fraction(number.digits, number.places)
    } else {
        None
    }
}
