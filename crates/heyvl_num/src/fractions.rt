//! Exact fractions in lowest terms.
ghost use Rattle.std.specs.Prelude.{◌≡◌, ◌<◌, ◌^◌, pos, ◌*ℤ◌, ◌<ℤ◌, unsigned_abs, neg_ℤ, int_div};
ghost use Rattle.std.specs.Prelude.{SomeIff, IsTrue};
ghost use Rattle.std.proofs.Common.{ap, ◌∙◌};
ghost use Rattle.heyvl_num.specs.Gcd as euclid;
ghost use Rattle.heyvl_num.specs.Rational.{Rational, ratio, zeroʳ, oneʳ};
ghost use Rattle.heyvl_num.specs.RationalParts.{ratio_num-lowest, ratio_den-lowest, abs-pos};
ghost use Rattle.heyvl_num.specs.RationalParts.{pos-abs};
ghost use Rattle.heyvl_num.specs.Exact.{is_small, quotient_fits, exact_quotient, exact_sum};
ghost use Rattle.heyvl_num.specs.Exact.{exact_difference, exact_product, exact_order};
ghost use Rattle.heyvl_num.specs.Rounding.{floorʳ, ceilʳ, IsFloor, IsCeiling};

use crate::bounded_numbers::{difference, product, sum};
use crate::divisors::gcd;
use std::cmp::Ordering;
use std::marker::Model;

/// A fraction in lowest terms with a positive denominator. The absolute values of the numerator and
/// the denominator are below 2^127.
#[derive(Clone, Copy, Debug, PartialEq, Eq, Hash)]
pub struct Frac {
    num: i128,
    den: i128,
}

impl Model for Frac {
    ghost Value = { Rational };

    ghost view = { λ f. ratio f.num (unsigned_abs f.den) };

    ghost invariant = { λ f. (pos 0 <ℤ f.den) × (unsigned_abs f.num < 2 ^ 127)
        × (euclid.gcd (unsigned_abs f.num) (unsigned_abs f.den) ≡ 1) };

    ghost inverse = { λ r. record { num = r.num; den = pos r.den } };

    ghost inverse_ok = { λ a h i.
        record {
          num = ratio_num-lowest a.num (unsigned_abs a.den) (abs-pos a.den h.0) h.2 i;
          den = (ap pos (ratio_den-lowest a.num (unsigned_abs a.den) (abs-pos a.den h.0) h.2) ∙
              pos-abs a.den h.0) i;
        } };
}

impl Frac {
    /// Returns the fraction `num / den`, or `None` if `den` is 0 or one of the two is the least
    /// i128.
    pub fn new(num: i128, den: i128) -> Option<Frac>
        ensures { result ≡ exact_quotient num den }
    {
        if !is_quotient(num, den) {
            None
        } else if den < 0 {
            Some(Frac::reduced(-num, -den))
        } else {
            Some(Frac::reduced(num, den))
        }
    }

    /// Returns the number 0.
    pub fn zero() -> Frac
        ensures { result ≡ zeroʳ }
    {
        Frac::new(0, 1).unwrap()
    }

    /// Returns the number 1.
    pub fn one() -> Frac
        ensures { result ≡ oneʳ }
    {
        Frac::new(1, 1).unwrap()
    }

    /// Returns the numerator in lowest terms, which has the sign of the fraction.
    pub fn num(&self) -> i128
        ensures { result ≡ self.now.num }
    {
        self.num
    }

    /// Returns the denominator in lowest terms, which is positive.
    pub fn den(&self) -> i128
        ensures { result ≡ pos self.now.den }
    {
        self.den
    }

    /// Returns the sum.
    ///
    /// `None` if, for `self` = a/b and `other` = c/d, one of `a*d`, `c*b`, `b*d` and `a*d + c*b`
    /// reaches 2^127 in absolute value.
    pub fn add(&self, other: &Frac) -> Option<Frac>
        ensures { result ≡ exact_sum self.now other.now }
    {
        let left = self.num_times_den(other)?;
        let right = other.num_times_den(self)?;
        let den = self.den_times_den(other)?;
        let num = sum(left, right)?;
        Some(Frac::reduced(num, den))
    }

    /// Returns the difference.
    ///
    /// `None` if, for `self` = a/b and `other` = c/d, one of `a*d`, `c*b`, `b*d` and `a*d - c*b`
    /// reaches 2^127 in absolute value.
    pub fn sub(&self, other: &Frac) -> Option<Frac>
        ensures { result ≡ exact_difference self.now other.now }
    {
        let left = self.num_times_den(other)?;
        let right = other.num_times_den(self)?;
        let den = self.den_times_den(other)?;
        let num = difference(left, right)?;
        Some(Frac::reduced(num, den))
    }

    /// Returns the product.
    ///
    /// `None` if, for `self` = a/b and `other` = c/d, `a*c` or `b*d` reaches 2^127 in absolute
    /// value.
    pub fn mul(&self, other: &Frac) -> Option<Frac>
        ensures { result ≡ exact_product self.now other.now }
    {
        let num = self.num_times_num(other)?;
        let den = self.den_times_den(other)?;
        Some(Frac::reduced(num, den))
    }

    /// Returns how `self` compares with `other`.
    ///
    /// `None` if, for `self` = a/b and `other` = c/d, `a*d` or `c*b` reaches 2^127 in absolute
    /// value.
    pub fn compare(&self, other: &Frac) -> Option<Ordering>
        ensures { result ≡ exact_order self.now other.now }
    {
        let here = self.num_times_den(other)?;
        let there = other.num_times_den(self)?;
        Some(here.cmp(&there))
    }

    /// Returns the largest integer that is at most the fraction.
    pub fn floor(&self) -> i128
        ensures value { result ≡ floorʳ self.now }
        ensures greatest { IsFloor self.now result }
    {
        self.num().div_euclid(self.den())
    }

    /// Returns the least integer that is at least the fraction.
    pub fn ceil(&self) -> i128
        ensures value { result ≡ ceilʳ self.now }
        ensures least { IsCeiling self.now result }
    {
        -self.negated_num().div_euclid(self.den())
    }

    fn negated_num(&self) -> i128
        ensures value { result ≡ neg_ℤ self.now.num }
        ensures small { unsigned_abs result < 2 ^ 127 }
    {
        -self.num
    }

    fn num_times_num(&self, other: &Frac) -> Option<i128>
        ensures { SomeIff result (IsTrue (is_small (self.now.num *ℤ other.now.num)))
            (self.now.num *ℤ other.now.num) }
    {
        product(self.num(), other.num())
    }

    fn num_times_den(&self, other: &Frac) -> Option<i128>
        ensures { SomeIff result (IsTrue (is_small (self.now.num *ℤ pos other.now.den)))
            (self.now.num *ℤ pos other.now.den) }
    {
        product(self.num(), other.den())
    }

    fn den_times_den(&self, other: &Frac) -> Option<i128>
        ensures { SomeIff result (IsTrue (is_small (pos self.now.den *ℤ pos other.now.den)))
            (pos self.now.den *ℤ pos other.now.den) }
    {
        product(self.den(), other.den())
    }

    fn reduced(num: i128, den: i128) -> Frac
        requires positive { pos 0 <ℤ den }
        requires small { unsigned_abs num < 2 ^ 127 }
        ensures { result ≡ ratio num (unsigned_abs den) }
    {
        let divisor = gcd(num.unsigned_abs(), den.unsigned_abs()) as i128;
        let num = quotient(num, divisor);
        let den = quotient(den, divisor);
        Frac { num, den }
    }
}

/// Returns whether `den` is not 0 and both numbers are below 2^127 in absolute value.
#[tactic(auto, unfolding(crate::specs::Exact::quotient_fits))]
fn is_quotient(num: i128, den: i128) -> bool
    ensures { result ≡ quotient_fits num den }
{
    den != 0 && num != i128::MIN && den != i128::MIN
}

/// Returns the quotient, rounded toward 0.
fn quotient(a: i128, divisor: i128) -> i128
    requires { pos 0 <ℤ divisor }
    ensures { result ≡ int_div a divisor }
{
    if divisor == 1 { a } else { a / divisor }
}
