//! Lists of terms: pairs of a variable's number and its coefficient, in increasing order of the
//! numbers.
ghost use Rattle.std.specs.Prelude.{◌≡◌, ◌<◌, ◌≤◌, ◌^◌, ◌+◌, ◌*ℤ◌, ◌++◌, [], ℤ, pos, ◌<ℤ◌, ◌&&◌};
ghost use Rattle.std.specs.Prelude.{int_div, length, drop, unsigned_abs, is_some, IfOk, IfSome};
ghost use Rattle.std.specs.Prelude.{SomeIff};
ghost use Rattle.std.specs.List.{All};
ghost use Rattle.linear_rows.specs.Terms.{coefficient, IsNormal, put_term};
ghost use Rattle.linear_rows.specs.TermResults.{scaled_terms, merged_terms, mixed_terms, are_wide};
ghost use Rattle.linear_rows.specs.TermResults.{are_narrow};
ghost use Rattle.linear_rows.specs.internal.NextTerms.{IsNextTerm};
ghost use Rattle.linear_rows.specs.Divisors.{divisor, divided_terms};

use heyvl_num::gcd;
use std::alloc::{AllocError, Global};

/// Returns the coefficient of `x` in `terms`: 0 if `x` does not occur.
pub fn coefficient_of(terms: &[(u32, i64)], x: u32) -> i64
    requires normal { IsNormal terms.now }
    requires narrow { All (λ t. unsigned_abs t.1 < 2 ^ 62) terms.now }
    ensures value { result ≡ coefficient x terms.now }
    ensures narrow { unsigned_abs result < 2 ^ 62 }
{
    for &(v, c) in terms {
        if v == x {
            return c;
        }
    }
    0
}

/// Returns `p * c`, or None if its absolute value is 2^126 or more.
pub fn wide_product(p: i128, c: i64) -> Option<i128>
    ensures { SomeIff result (unsigned_abs (p *ℤ c) < 2 ^ 126) (p *ℤ c) }
{
    let limit: i128 = 1 << 126;
    let product = p.checked_mul(c as i128)?;
    if product > -limit && product < limit {
        Some(product)
    } else {
        None
    }
}

/// Returns `terms` with each coefficient multiplied by `p`, or None if the absolute value of a
/// product is 2^126 or more.
pub fn scaled(
    alloc: Global,
    p: i128,
    terms: &[(u32, i64)],
) -> Result<Option<Vec<(u32, i128)>>, AllocError>
    ensures terms { IfOk result (λ o. IfSome o (λ ts. ts.items ≡ scaled_terms p terms.now)) }
    ensures wide { IfOk result
        (λ o. IfSome o (λ ts. All (λ t. unsigned_abs t.1 < 2 ^ 126) ts.items)) }
    ensures fits { IfOk result (λ o. is_some o ≡ are_wide p terms.now) }
{
    let mut out: Vec<(u32, i128)> = Vec::new(alloc);
    for &(v, c) in terms {
        let Some(product) = wide_product(p, c) else {
            return Ok(None);
        };
        out.push((v, product))?;
    }
    Ok(Some(out))
}

/// Appends the term `(v, c)`, unless `c` is 0.
fn push_term(out: &mut Vec<(u32, i128)>, v: u32, c: i128) -> Result<(), AllocError>
    ensures { IfOk result (λ _. out.new.items ≡ out.old.items ++ put_term v c []) }
{
    if c != 0 {
        out.push((v, c))?;
    }
    Ok(())
}

/// The next term of a merge, and the places after it in the left and the right list.
#[derive(Clone, Copy)]
struct Next {
    var: u32,
    coef: i128,
    left: usize,
    right: usize,
}

/// Returns the term of the lower variable at the places `i` of `a` and `j` of `b`; if both have it,
/// the sum of their coefficients.
fn next_term(a: &[(u32, i128)], i: usize, b: &[(u32, i128)], j: usize) -> Next
    requires left_normal { IsNormal (drop i a.now) }
    requires right_normal { IsNormal (drop j b.now) }
    requires left_wide { All (λ t. unsigned_abs t.1 < 2 ^ 126) a.now }
    requires right_wide { All (λ t. unsigned_abs t.1 < 2 ^ 126) b.now }
    requires left_within { i ≤ length a.now }
    requires right_within { j ≤ length b.now }
    requires more { i + j < length a.now + length b.now }
    ensures next { IsNextTerm a.now i b.now j result.var result.coef result.left result.right }
{
    if i < a.len() {
        let (v, c) = a[i];
        if j < b.len() {
            let (w, d) = b[j];
            if v < w {
                Next {
                    var: v,
                    coef: c,
                    left: i + 1,
                    right: j,
                }
            } else if w < v {
                Next {
                    var: w,
                    coef: d,
                    left: i,
                    right: j + 1,
                }
            } else {
                Next {
                    var: v,
                    coef: c + d,
                    left: i + 1,
                    right: j + 1,
                }
            }
        } else {
            Next {
                var: v,
                coef: c,
                left: i + 1,
                right: j,
            }
        }
    } else {
        let (w, d) = b[j];
        Next {
            var: w,
            coef: d,
            left: i,
            right: j + 1,
        }
    }
}

/// Returns the sum of the linear sums `a` and `b`, without terms whose coefficient is 0.
pub fn merged(
    alloc: Global,
    a: &[(u32, i128)],
    b: &[(u32, i128)],
) -> Result<Vec<(u32, i128)>, AllocError>
    requires left_normal { IsNormal a.now }
    requires right_normal { IsNormal b.now }
    requires left_wide { All (λ t. unsigned_abs t.1 < 2 ^ 126) a.now }
    requires right_wide { All (λ t. unsigned_abs t.1 < 2 ^ 126) b.now }
    ensures { IfOk result (λ ts. ts.items ≡ merged_terms a.now b.now) }
{
    let mut out: Vec<(u32, i128)> = Vec::new(alloc);
    let mut i: usize = 0;
    let mut j: usize = 0;
    while i < a.len() || j < b.len() {
        let next = next_term(a, i, b, j);
        push_term(&mut out, next.var, next.coef)?;
        i = next.left;
        j = next.right;
    }
    Ok(out)
}

/// Returns `p * a + q * b`, or None if a product of a coefficient is 2^126 or more in absolute
/// value.
pub fn mixed(
    alloc: Global,
    p: i128,
    a: &[(u32, i64)],
    q: i128,
    b: &[(u32, i64)],
) -> Result<Option<Vec<(u32, i128)>>, AllocError>
    requires left_positive { pos 0 <ℤ p }
    requires right_positive { pos 0 <ℤ q }
    requires left_normal { IsNormal a.now }
    requires right_normal { IsNormal b.now }
    ensures terms { IfOk result (λ o. IfSome o (λ ts. ts.items ≡ mixed_terms p a.now q b.now)) }
    ensures fits { IfOk result (λ o. is_some o ≡ (are_wide p a.now && are_wide q b.now)) }
{
    let Some(left) = scaled(alloc, p, a)? else {
        return Ok(None);
    };
    let Some(right) = scaled(alloc, q, b)? else {
        return Ok(None);
    };
    Ok(Some(merged(alloc, &left, &right)?))
}

/// Returns the greatest common divisor of `n` and all coefficients, or 1 if all of them are 0.
pub fn divisor_of(terms: &[(u32, i128)], n: u128) -> u128
    ensures value { result ≡ divisor terms.now n }
    ensures positive { 0 < result }
{
    let mut common = n;
    let mut i = terms.len();
    while i > 0 {
        i -= 1;
        let (_, c) = terms[i];
        common = gcd(c.unsigned_abs(), common);
    }
    if common == 0 { 1 } else { common }
}

/// Returns `c / divisor`, rounded toward 0, or None if its absolute value is 2^62 or more.
pub fn narrow_quotient(c: i128, divisor: u128) -> Option<i64>
    requires { 0 < divisor }
    ensures { SomeIff result (unsigned_abs (int_div c (pos divisor)) < 2 ^ 62)
        (int_div c (pos divisor)) }
{
    let quotient = c.unsigned_abs() / divisor;
    if quotient < 1 << 62 {
        let size = quotient as i64;
        if c < 0 { Some(-size) } else { Some(size) }
    } else {
        None
    }
}

/// Returns `terms` with each coefficient divided by `divisor`, rounded toward 0, or None if the
/// absolute value of a quotient is 2^62 or more.
pub fn divided(
    alloc: Global,
    terms: &[(u32, i128)],
    divisor: u128,
) -> Result<Option<Vec<(u32, i64)>>, AllocError>
    requires { 0 < divisor }
    ensures terms { IfOk result (λ o. IfSome o (λ ts. ts.items ≡ divided_terms divisor terms.now)) }
    ensures fits { IfOk result (λ o. is_some o ≡ are_narrow (divided_terms divisor terms.now)) }
{
    let mut out: Vec<(u32, i64)> = Vec::new(alloc);
    for &(v, c) in terms {
        let Some(quotient) = narrow_quotient(c, divisor) else {
            return Ok(None);
        };
        out.push((v, quotient))?;
    }
    Ok(Some(out))
}
