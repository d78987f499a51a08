//! Fractions extended by infinity.
ghost use Rattle.std.specs.Prelude.{◌≡◌, option_map};
ghost use Rattle.heyvl_num.specs.Rational.{zeroʳ};
ghost use Rattle.heyvl_num.specs.Value.{◌*ᵛ◌, zeroᵛ, oneᵛ};
ghost use Rattle.heyvl_num.specs.Value.Value.{finite, infinite};
ghost use Rattle.heyvl_num.specs.ExtendedNumbers.{value_of};
ghost use Rattle.heyvl_num.specs.ExactValues.{exact_sumᵛ, exact_productᵛ, exact_orderᵛ};

use crate::fractions::Frac;
use std::cmp::Ordering;

/// A fraction, or infinity.
#[derive(Clone, Copy, Debug, PartialEq, Eq, Hash)]
pub enum Ext {
    Fin(Frac),
    Inf,
}

impl Ext {
    /// Returns the number 0.
    pub fn zero() -> Ext
        ensures value { value_of result ≡ zeroᵛ }
        ensures number { value_of result ≡ finite zeroʳ }
    {
        Ext::Fin(Frac::zero())
    }

    /// Returns the number 1.
    pub fn one() -> Ext
        ensures { value_of result ≡ oneᵛ }
    {
        Ext::Fin(Frac::one())
    }

    /// Returns the sum, which is infinite if `self` or `other` is.
    ///
    /// `None` if both are finite and `Frac::add` returns `None`.
    pub fn add(&self, other: &Ext) -> Option<Ext>
        ensures { option_map value_of result ≡ exact_sumᵛ (value_of self.now) (value_of other.now) }
    {
        match (self, other) {
            (Ext::Fin(x), Ext::Fin(y)) => Some(Ext::Fin(x.add(y)?)),
            (Ext::Inf, _) | (_, Ext::Inf) => Some(Ext::Inf),
        }
    }

    /// Returns the product, in which 0 times infinity is 0. A negative fraction times infinity has
    /// no meaning; its result is infinity.
    ///
    /// `None` if both are finite and `Frac::mul` returns `None`.
    pub fn mul(&self, other: &Ext) -> Option<Ext>
        ensures { option_map value_of result
            ≡ exact_productᵛ (value_of self.now) (value_of other.now) }
    {
        match (self, other) {
            (Ext::Fin(x), Ext::Fin(y)) => Some(Ext::Fin(x.mul(y)?)),
            (Ext::Fin(x), Ext::Inf) => Some(infinite_times(x)),
            (Ext::Inf, Ext::Fin(y)) => Some(infinite_times(y)),
            (Ext::Inf, Ext::Inf) => Some(Ext::Inf),
        }
    }

    /// Returns the order, in which infinity is above every fraction.
    ///
    /// `None` if both are finite and `Frac::compare` returns `None`.
    pub fn compare(&self, other: &Ext) -> Option<Ordering>
        ensures { result ≡ exact_orderᵛ (value_of self.now) (value_of other.now) }
    {
        match (self, other) {
            (Ext::Fin(x), Ext::Fin(y)) => x.compare(y),
            (Ext::Fin(_), Ext::Inf) => Some(Ordering::Less),
            (Ext::Inf, Ext::Fin(_)) => Some(Ordering::Greater),
            (Ext::Inf, Ext::Inf) => Some(Ordering::Equal),
        }
    }
}

/// Returns infinity times `x`, which is 0 if `x` is 0.
fn infinite_times(x: &Frac) -> Ext
    ensures { value_of result ≡ infinite *ᵛ finite x.now }
{
    if x.num() == 0 { Ext::Fin(*x) } else { Ext::Inf }
}
