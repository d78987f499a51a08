//! Pairs of rows with opposite terms, which contradict each other if their constants do. Untrusted:
//! the multipliers are tested.
use crate::spots::with_product;
use heyvl_num::gcd;
use linear_rows::Row;

/// Returns whether `p * a + q * b` seems to vanish.
fn vanish(a: &[(u32, i64)], p: i64, b: &[(u32, i64)], q: i64) -> bool {
    for i in 0..a.len() {
        if let Some(&(y, d)) = b.get(i) {
            let (x, c) = a[i];
            if x != y || c.wrapping_mul(p).wrapping_add(d.wrapping_mul(q)) != 0 {
                return false;
            }
        }
    }
    true
}

/// Returns multipliers for which two terms vanish, if there are any.
fn opposite(a: (u32, i64), b: (u32, i64)) -> Option<(i64, i64)> {
    if a.0 != b.0 || (a.1 < 0) == (b.1 < 0) {
        return None;
    }
    let p = b.1.wrapping_abs();
    let q = a.1.wrapping_abs();
    if p == q { Some((1, 1)) } else { Some((p, q)) }
}

/// Returns whether the constants of `p * a + q * b` yield a false row.
fn is_unmet(a: &Row, p: i64, b: &Row, q: i64) -> bool {
    let Some(first) = with_product(0, i128::from(a.rest), i128::from(p)) else {
        return false;
    };
    let Some(sum) = with_product(first, i128::from(b.rest), i128::from(q)) else {
        return false;
    };
    sum > 0 || (sum == 0 && (a.strict || b.strict))
}

/// Returns two numbers divided by their greatest common divisor.
fn in_lowest_terms(p: u64, q: u64) -> Option<(u64, u64)> {
    if p == 1 || q == 1 {
        return Some((p, q));
    }
    let common = gcd(u128::from(p), u128::from(q));
    let first = u128::from(p).checked_div(common)?;
    let second = u128::from(q).checked_div(common)?;
    Some((u64::try_from(first).ok()?, u64::try_from(second).ok()?))
}

/// Returns the multipliers of two rows, if they seem to contradict each other.
pub(crate) fn clash(a: &Row, b: &Row) -> Option<(u64, u64)> {
    if a.terms.len() != b.terms.len() {
        return None;
    }
    let (p, q) = opposite(*a.terms.first()?, *b.terms.first()?)?;
    if !vanish(&a.terms, p, &b.terms, q) || !is_unmet(a, p, b, q) {
        return None;
    }
    in_lowest_terms(p.unsigned_abs(), q.unsigned_abs())
}
