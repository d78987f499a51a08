//! Fingerprints of lists of terms, by which equal ones are found among many.
ghost use Rattle.std.specs.Prelude.{◌≡◌};
ghost use Rattle.linear_elim.specs.internal.Fingerprints.{hashed, fingerprint};

/// An odd number with irregular bits: 2^64 divided by the golden ratio.
const MULTIPLIER: u64 = 0x9e37_79b9_7f4a_7c15;

pub(crate) fn hashed(number: u64, next: u64) -> u64
    ensures { result ≡ hashed number next }
{
    number.wrapping_mul(MULTIPLIER).wrapping_add(next)
}

/// Returns the fingerprint of `terms`: a hash of their variables and coefficients, in order.
/// Different lists rarely have the same fingerprint.
pub fn fingerprint(terms: &[(u32, i64)]) -> u64
    ensures { result ≡ fingerprint terms.now }
{
    let mut number = 0;
    for i in 0..terms.len() {
        let (variable, coefficient) = terms[i];
        let half = hashed(number, u64::from(variable));
        number = hashed(half, coefficient.cast_unsigned());
    }
    number
}
