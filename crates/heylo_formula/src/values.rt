//! Values of variables.

ghost use Rattle.heylo_formula.specs.State as states;
ghost use Rattle.heyvl_num.specs.Rational.{leqʳ, zeroʳ};
ghost use Rattle.std.specs.Prelude.{◌≡◌};

use crate::types::Ty;
use heyvl_num::Frac;

/// The value of a variable: a truth value or an exact fraction.
#[derive(Clone, Copy, Debug, PartialEq, Eq, Hash)]
pub enum Val {
    Truth(bool),
    Num(Frac),
}

impl Ty {
    /// Returns the default value of the type: false or 0.
    pub fn default(self) -> Val
        ensures { result ≡ states.default self }
    {
        match self {
            Ty::Bool => Val::Truth(false),
            Ty::Int | Ty::UInt | Ty::UReal => Val::Num(Frac::zero()),
        }
    }

    /// Returns whether the value is of the type.
    pub fn has(self, value: &Val) -> bool
        ensures { result ≡ states.has self value.now }
    {
        match value {
            Val::Truth(_) => match self {
                Ty::Bool => true,
                Ty::Int | Ty::UInt | Ty::UReal => false,
            },
            Val::Num(number) => match self {
                Ty::Bool => false,
                Ty::Int => number.den() == 1,
                Ty::UInt => number.den() == 1 && is_nonnegative(number),
                Ty::UReal => is_nonnegative(number),
            },
        }
    }
}

fn is_nonnegative(number: &Frac) -> bool
    ensures { result ≡ leqʳ zeroʳ number.now }
{
    number.num() >= 0
}
