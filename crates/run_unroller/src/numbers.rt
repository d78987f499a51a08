//! Integers as fractions.

ghost use Rattle.std.specs.Prelude.{◌≡◌, pos};
ghost use Rattle.heyvl_num.specs.Rational.{ratio};

use heyvl_num::Frac;

pub(crate) fn whole(n: u64) -> Frac
    ensures { result ≡ ratio (pos n) 1 }
{
    Frac::new(n as i128, 1).unwrap()
}
