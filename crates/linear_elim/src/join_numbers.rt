//! The fingerprint of a combination of rows with small numbers, computed without the terms.
ghost use Rattle.std.specs.Prelude.{◌≡◌, ◌<◌, ◌^◌, [], pos, true, unsigned_abs};
ghost use Rattle.std.specs.List.{All};
ghost use Rattle.linear_rows.specs.Divisors.{common, divided_terms};
ghost use Rattle.linear_rows.specs.TermResults.{mixed_terms};
ghost use Rattle.linear_rows.specs.Terms.{coefficient, IsNormal, put_term};
ghost use Rattle.linear_elim.specs.Joins.{is_below_zero, is_above_zero, join, join_fits};
ghost use Rattle.linear_elim.specs.internal.DerivedRows.{IsDerived};
ghost use Rattle.linear_elim.specs.internal.Fingerprints.{hashed_all, fingerprint};
ghost use Rattle.linear_elim.specs.internal.SmallRows.{IsSmall};

use crate::fingerprints::hashed;
use crate::joins::Derived;
use crate::small_joins::{greatest, next_mixed, products};

/// A sum of terms: the greatest common divisor of a constant and all coefficients, and the
/// fingerprint of the terms before they are divided.
#[derive(Clone, Copy)]
struct Sum {
    divisor: u64,
    number: u64,
}

/// Returns `number` with the term `(v, c)` hashed into it, unless `c` is 0.
pub(crate) fn with_term(number: u64, v: u32, c: i64) -> u64
    ensures { result ≡ hashed_all number (put_term v c []) }
{
    if c == 0 {
        return number;
    }
    let half = hashed(number, u64::from(v));
    hashed(half, c.cast_unsigned())
}

/// Returns `number` with the divided term hashed into it, unless `c` is 0.
fn with_quotient(number: u64, v: u32, c: i64, divisor: u64) -> u64
    requires positive { 0 < divisor }
    requires small { divisor < 2 ^ 20 }
    ensures { result ≡ hashed_all number (divided_terms divisor (put_term v c [])) }
{
    if c == 0 {
        return number;
    }
    let quotient = c / (divisor as i64);
    let half = hashed(number, u64::from(v));
    hashed(half, quotient.cast_unsigned())
}

/// Sums `p * a + q * b`, with the constant `n`.
fn summed(p: u64, a: &[(u32, i64)], q: u64, b: &[(u32, i64)], n: u64) -> Sum
    requires p_small { p < 2 ^ 20 }
    requires q_small { q < 2 ^ 20 }
    requires q_positive { 0 < q }
    requires left_normal { IsNormal a.now }
    requires right_normal { IsNormal b.now }
    requires left_small { All (λ t. unsigned_abs t.1 < 2 ^ 20) a.now }
    requires right_small { All (λ t. unsigned_abs t.1 < 2 ^ 20) b.now }
    ensures divisor { result.divisor ≡ common (mixed_terms (pos p) a.now (pos q) b.now) n }
    ensures number { result.number ≡ fingerprint (mixed_terms (pos p) a.now (pos q) b.now) }
{
    let mut divisor = n;
    let mut number = 0;
    let mut i: usize = 0;
    let mut j: usize = 0;
    while i < a.len() || j < b.len() {
        let next = next_mixed(p, a, i, q, b, j);
        divisor = greatest(next.coef.unsigned_abs(), divisor);
        number = with_term(number, next.var, next.coef);
        i = next.left;
        j = next.right;
    }
    Sum { divisor, number }
}

/// Returns the fingerprint of `p * a + q * b`, divided by `divisor`.
fn divided_number(p: u64, a: &[(u32, i64)], q: u64, b: &[(u32, i64)], divisor: u64) -> u64
    requires p_small { p < 2 ^ 20 }
    requires q_small { q < 2 ^ 20 }
    requires q_positive { 0 < q }
    requires left_normal { IsNormal a.now }
    requires right_normal { IsNormal b.now }
    requires left_small { All (λ t. unsigned_abs t.1 < 2 ^ 20) a.now }
    requires right_small { All (λ t. unsigned_abs t.1 < 2 ^ 20) b.now }
    requires positive { 0 < divisor }
    requires small { divisor < 2 ^ 20 }
    ensures { result ≡ fingerprint
        (divided_terms divisor (mixed_terms (pos p) a.now (pos q) b.now)) }
{
    let mut number = 0;
    let mut i: usize = 0;
    let mut j: usize = 0;
    while i < a.len() || j < b.len() {
        let next = next_mixed(p, a, i, q, b, j);
        number = with_quotient(number, next.var, next.coef, divisor);
        i = next.left;
        j = next.right;
    }
    number
}

/// Returns the fingerprint of a combination, or 0 if it is not known, or not known that the
/// combination fits.
pub(crate) fn join_number(x: u32, low: &Derived, up: &Derived) -> u64
    requires low_derived { IsDerived low.now }
    requires up_derived { IsDerived up.now }
    requires low_small { IsSmall low.now }
    requires up_small { IsSmall up.now }
    requires lower { is_below_zero (coefficient x low.now.row.terms) ≡ true }
    requires upper { is_above_zero (coefficient x up.now.row.terms) ≡ true }
    ensures { (result ≡ 0 → ⊥) → (result ≡ fingerprint (join x low.now up.now).row.terms)
        × (join_fits x low.now up.now ≡ true) }
{
    let p = up.size(x);
    let q = low.size(x);
    let left = &low.row;
    let right = &up.row;
    let rest = products(p, left.rest, q, right.rest);
    let sum = summed(p, &left.terms, q, &right.terms, rest.unsigned_abs());
    if sum.divisor == 0 {
        return 0;
    }
    if sum.divisor >= 1 << 20 {
        return 0;
    }
    if sum.divisor == 1 {
        return sum.number;
    }
    divided_number(p, &left.terms, q, &right.terms, sum.divisor)
}
