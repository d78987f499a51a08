//! Fractions below 2^62, whose sums and products are exact.

ghost use Rattle.std.specs.Prelude.{◌≡◌, ◌==◌, ◌&&◌, MatchOption, true, if◌then◌else◌};
ghost use Rattle.heyvl_num.specs.Rational.{oneʳ, ◌+ʳ◌, ◌*ʳ◌};
ghost use Rattle.heyvl_num.specs.Value.{is_zeroʳ};
ghost use Rattle.linear_rows.specs.Terms.{is_narrow};
ghost use Rattle.linear_rows.specs.Numbers.{minus_oneʳ, fits as number_fits};
ghost use Rattle.linear_rows.specs.Numbers.{is_negative as number_is_negative};
ghost use Rattle.heyvl_num.specs.Rounding.{whole as whole_fraction};
ghost use Rattle.linear_values.specs.Operator.{signed_number, narrow_value};

use heyvl_num::Frac;

/// The limit 2^62 of the numbers of linear values and rows.
const BOUND: u128 = 4_611_686_018_427_387_904;

/// Returns the integer `n` as a fraction.
pub fn whole(n: i64) -> Frac
    ensures { result ≡ whole_fraction n }
{
    Frac::new(i128::from(n), 1).unwrap()
}

/// Returns the fraction -1.
pub fn minus_one() -> Frac
    ensures { result ≡ minus_oneʳ }
{
    Frac::new(-1, 1).unwrap()
}

/// Returns whether the numerator and the denominator are below 2^62 in absolute value.
#[tactic(auto, unfolding(linear_rows::specs::Numbers::fits))]
pub fn fits(x: &Frac) -> bool
    ensures { result ≡ number_fits x.now }
{
    is_below(x.num()) && is_below(x.den())
}

fn is_below(n: i128) -> bool
    ensures { result ≡ is_narrow n }
{
    n.unsigned_abs() < BOUND
}

/// Returns `z`, or None if its absolute value is 2^62 or more.
pub fn narrow(z: i128) -> Option<i64>
    ensures { result ≡ narrow_value z }
{
    if z.unsigned_abs() < BOUND {
        Some(z as i64)
    } else {
        None
    }
}

/// Returns whether `x` is 0.
pub fn is_zero(x: &Frac) -> bool
    ensures { result ≡ is_zeroʳ x.now }
{
    x.num() == 0
}

/// Returns whether `x` is at most 0 or, if `strict`, below 0.
pub fn is_negative(x: &Frac, strict: bool) -> bool
    ensures { result ≡ number_is_negative x.now strict }
{
    if strict { x.num() < 0 } else { x.num() <= 0 }
}

/// Returns `x` if its numerator and denominator are below 2^62 in absolute value, otherwise None.
pub fn fitting(x: Frac) -> Option<Frac>
    ensures { result ≡ (if number_fits x then Some x else None) }
{
    if fits(&x) { Some(x) } else { None }
}

/// Returns true only if `x` is 1.
pub(crate) fn is_one(x: &Frac) -> bool
    ensures { result ≡ true → x.now ≡ oneʳ }
{
    is_whole(x) && x.num() == 1
}

fn is_whole(x: &Frac) -> bool
    ensures { result ≡ (x.now.den == 1) }
{
    x.den() == 1
}

/// Returns `x` as an integer, if it is one below 2^62 in absolute value.
pub fn as_whole(x: &Frac) -> Option<i64>
    ensures { MatchOption result (Unit {0}) (λ n. (x.now ≡ whole_fraction n)
        × (is_narrow n ≡ true)) }
{
    if is_whole(x) { narrow(x.num()) } else { None }
}

fn are_whole(x: &Frac, y: &Frac) -> bool
    ensures { result ≡ ((x.now.den == 1) && (y.now.den == 1)) }
{
    is_whole(x) && is_whole(y)
}

/// Returns `x` or, if `downward`, `-x`.
pub fn signed(x: &Frac, downward: bool) -> Frac
    requires { number_fits x.now ≡ true }
    ensures { result ≡ signed_number downward x.now }
{
    if downward {
        product(&minus_one(), x)
    } else {
        *x
    }
}

/// Returns `x + y`, at low cost if one of them is 0 or both are integers.
pub fn sum(x: &Frac, y: &Frac) -> Frac
    requires left { number_fits x.now ≡ true }
    requires right { number_fits y.now ≡ true }
    ensures { result ≡ x.now +ʳ y.now }
{
    if are_whole(x, y) {
        whole_sum(x, y)
    } else if is_zero(y) {
        *x
    } else if is_zero(x) {
        *y
    } else {
        any_sum(x, y)
    }
}

fn whole_sum(x: &Frac, y: &Frac) -> Frac
    requires left { number_fits x.now ≡ true }
    requires right { number_fits y.now ≡ true }
    requires whole { ((x.now.den == 1) && (y.now.den == 1)) ≡ true }
    ensures { result ≡ x.now +ʳ y.now }
{
    Frac::new(x.num() + y.num(), 1).unwrap()
}

fn any_sum(x: &Frac, y: &Frac) -> Frac
    requires left { number_fits x.now ≡ true }
    requires right { number_fits y.now ≡ true }
    ensures { result ≡ x.now +ʳ y.now }
{
    x.add(y).unwrap()
}

/// Returns `x * y`, at low cost if `y` is 0 or both are integers.
pub(crate) fn product(x: &Frac, y: &Frac) -> Frac
    requires left { number_fits x.now ≡ true }
    requires right { number_fits y.now ≡ true }
    ensures { result ≡ x.now *ʳ y.now }
{
    if are_whole(x, y) {
        whole_product(x, y)
    } else if is_zero(y) {
        *y
    } else {
        any_product(x, y)
    }
}

fn whole_product(x: &Frac, y: &Frac) -> Frac
    requires left { number_fits x.now ≡ true }
    requires right { number_fits y.now ≡ true }
    requires whole { ((x.now.den == 1) && (y.now.den == 1)) ≡ true }
    ensures { result ≡ x.now *ʳ y.now }
{
    Frac::new(x.num() * y.num(), 1).unwrap()
}

fn any_product(x: &Frac, y: &Frac) -> Frac
    requires left { number_fits x.now ≡ true }
    requires right { number_fits y.now ≡ true }
    ensures { result ≡ x.now *ʳ y.now }
{
    x.mul(y).unwrap()
}
