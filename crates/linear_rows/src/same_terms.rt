//! Equality of lists of terms.

ghost use Rattle.std.specs.Prelude.{◌≡◌};
ghost use Rattle.linear_rows.specs.SameTerms.{same_terms};

/// Returns whether `a` and `b` have the same variables with the same coefficients, in the same
/// order.
pub fn have_same_terms(a: &[(u32, i64)], b: &[(u32, i64)]) -> bool
    ensures { result ≡ same_terms a.now b.now }
{
    if a.len() != b.len() {
        return false;
    }
    for i in 0..a.len() {
        let (v, c) = a[i];
        let (w, d) = b[i];
        if v != w {
            return false;
        }
        if c != d {
            return false;
        }
    }
    true
}
