//! The fraction 0 in tests.

ghost use Rattle.std.specs.Prelude.{◌≡◌};
ghost use Rattle.heyvl_num.specs.Value.{is_zeroʳ};

use heyvl_num::Frac;

/// Returns whether the fraction is 0.
pub fn is_zero(x: &Frac) -> bool
    ensures { result ≡ is_zeroʳ x.now }
{
    x.num() == 0
}
