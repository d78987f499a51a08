//! Fractions below 2^62, and integers as fractions.
ghost use Rattle.std.specs.Prelude.{◌≡◌, ◌<◌, ◌^◌, true, unsigned_abs};
ghost use Rattle.heyvl_num.specs.Rational.{halfʳ, middleʳ, ◌+ʳ◌, compareʳ};
ghost use Rattle.heyvl_num.specs.Rounding.{whole};
ghost use Rattle.linear_rows.specs.Terms.{is_narrow};
ghost use Rattle.linear_rows.specs.Numbers.{fits as number_fits};

use heyvl_num::Frac;
use std::cmp::Ordering;

/// The limit 2^62 of the numbers of the greedy choice.
const BOUND: u128 = 4_611_686_018_427_387_904;

fn is_below(n: i128) -> bool
    ensures { result ≡ is_narrow n }
{
    n.unsigned_abs() < BOUND
}

/// Returns whether the numerator and the denominator are below 2^62 in absolute value.
#[tactic(auto, unfolding(linear_rows::specs::Numbers::fits))]
pub fn fits(x: &Frac) -> bool
    ensures { result ≡ number_fits x.now }
{
    is_below(x.num()) && is_below(x.den())
}

/// Returns the fraction `n/1`.
pub(crate) fn whole_number(n: i128) -> Frac
    requires { unsigned_abs n < 2 ^ 127 }
    ensures { result ≡ whole n }
{
    Frac::new(n, 1).unwrap()
}

/// Returns the fraction `n/1`.
pub fn whole_of(n: i64) -> Frac
    ensures { result ≡ whole n }
{
    whole_number(i128::from(n))
}

/// Compares two fractions.
pub fn order(x: &Frac, y: &Frac) -> Ordering
    requires left { unsigned_abs x.now.num < 2 ^ 63 }
    requires left_den { x.now.den < 2 ^ 63 }
    requires right { unsigned_abs y.now.num < 2 ^ 63 }
    requires right_den { y.now.den < 2 ^ 63 }
    ensures { result ≡ compareʳ x.now y.now }
{
    x.compare(y).unwrap()
}

pub(crate) fn sum(x: &Frac, y: &Frac) -> Frac
    requires left { number_fits x.now ≡ true }
    requires right { number_fits y.now ≡ true }
    ensures { result ≡ x.now +ʳ y.now }
{
    x.add(y).unwrap()
}

fn half() -> Frac
    ensures { result ≡ halfʳ }
{
    Frac::new(1, 2).unwrap()
}

/// Returns the middle of two fractions.
pub(crate) fn middle(x: &Frac, y: &Frac) -> Frac
    requires left { number_fits x.now ≡ true }
    requires right { number_fits y.now ≡ true }
    ensures { result ≡ middleʳ x.now y.now }
{
    half().mul(&sum(x, y)).unwrap()
}
