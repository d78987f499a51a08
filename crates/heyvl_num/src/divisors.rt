//! The greatest common divisor.
ghost use Rattle.std.specs.Prelude.{◌≡◌};
ghost use Rattle.std.specs.Int.{IsGcd};
ghost use Rattle.heyvl_num.specs.Gcd as euclid;

/// Returns the greatest number that divides both `a` and `b`; 0 if both are 0.
pub fn gcd(a: u128, b: u128) -> u128
    ensures value { result ≡ euclid.gcd a b }
    ensures greatest { IsGcd a b result }
{
    let mut x = a;
    let mut y = b;
    while y > 1 {
        let rest = x % y;
        x = y;
        y = rest;
    }
    if y == 1 { 1 } else { x }
}
