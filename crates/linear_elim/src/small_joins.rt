//! The terms of a combination of rows with small numbers, computed without its multipliers.
ghost use Rattle.std.specs.Prelude.{◌≡◌, ◌<◌, ◌≤◌, ◌+◌, ◌^◌, ◌++◌, ◌*ℤ◌, ◌+ℤ◌, [], ℤ, pos, true};
ghost use Rattle.std.specs.Prelude.{unsigned_abs, length, drop, IfOk};
ghost use Rattle.std.specs.List.{All};
ghost use Rattle.heyvl_num.specs.Gcd.{gcd};
ghost use Rattle.linear_rows.specs.Divisors.{divisor, divided_terms};
ghost use Rattle.linear_rows.specs.TermResults.{mixed_terms};
ghost use Rattle.linear_rows.specs.Terms.{coefficient, IsNormal, put_term};
ghost use Rattle.linear_elim.specs.Joins.{is_below_zero, is_above_zero, join, join_fits};
ghost use Rattle.linear_elim.specs.internal.DerivedRows.{IsDerived};
ghost use Rattle.linear_elim.specs.internal.SmallRows.{IsSmall, IsNextMixed};

use crate::joins::Derived;
use std::alloc::AllocError;

/// Returns true only if each coefficient is below 2^20 in absolute value.
fn are_small(terms: &[(u32, i64)]) -> bool
    ensures { result ≡ true → All (λ t. unsigned_abs t.1 < 2 ^ 20) terms.now }
{
    for i in 0..terms.len() {
        let (_, c) = terms[i];
        if c.unsigned_abs() >= 1 << 20 {
            return false;
        }
    }
    true
}

/// Returns true only if each number of a row is below 2^20 in absolute value.
pub(crate) fn is_small(r: &Derived) -> bool
    ensures { result ≡ true → IsSmall r.now }
{
    let row = &r.row;
    if r.over >= 1 << 20 {
        return false;
    }
    if row.rest.unsigned_abs() >= 1 << 20 {
        return false;
    }
    if !are_small(&row.terms) {
        return false;
    }
    are_small(&r.shares)
}

fn all_small(rows: &[Derived]) -> bool
    ensures { result ≡ true → All IsSmall rows.now }
{
    for i in 0..rows.len() {
        if !is_small(&rows[i]) {
            return false;
        }
    }
    true
}

/// Returns the greatest common divisor of `a` and `b`.
pub(crate) fn greatest(a: u64, b: u64) -> u64
    ensures { result ≡ gcd a b }
{
    if a == 0 {
        return b;
    }
    let mut x = a;
    let mut y = b;
    while y > 1 {
        let rest = x % y;
        x = y;
        y = rest;
    }
    if y == 1 { 1 } else { x }
}

/// Returns the greatest common divisor of `n` and all coefficients, or 1 if all of them are 0.
fn divisor_in(terms: &[(u32, i64)], n: u64) -> u64
    ensures value { result ≡ divisor terms.now n }
    ensures positive { 0 < result }
{
    let mut common = n;
    let mut i = terms.len();
    while i > 0 {
        i -= 1;
        let (_, c) = terms[i];
        common = greatest(c.unsigned_abs(), common);
    }
    if common == 0 { 1 } else { common }
}

fn product(p: u64, a: i64) -> i64
    requires left_small { p < 2 ^ 20 }
    requires right_small { unsigned_abs a < 2 ^ 20 }
    ensures value { result ≡ pos p *ℤ a }
    ensures small { unsigned_abs (pos p *ℤ a) < 2 ^ 40 }
{
    (p as i64) * a
}

pub(crate) fn products(p: u64, a: i64, q: u64, b: i64) -> i64
    requires p_small { p < 2 ^ 20 }
    requires q_small { q < 2 ^ 20 }
    requires a_small { unsigned_abs a < 2 ^ 20 }
    requires b_small { unsigned_abs b < 2 ^ 20 }
    ensures { result ≡ (pos p *ℤ a) +ℤ (pos q *ℤ b) }
{
    let left = product(p, a);
    let right = product(q, b);
    left + right
}

fn push_term(out: &mut Vec<(u32, i64)>, v: u32, c: i64) -> Result<(), AllocError>
    ensures { IfOk result (λ _. out.new.items ≡ out.old.items ++ put_term v c []) }
{
    if c != 0 {
        out.push((v, c))?;
    }
    Ok(())
}

/// The next term of a combination, and the places after it.
#[derive(Clone, Copy)]
pub(crate) struct Next {
    pub(crate) var: u32,
    pub(crate) coef: i64,
    pub(crate) left: usize,
    pub(crate) right: usize,
}

/// Returns the term of the lower variable at the places `i` of `a` and `j` of `b`, for `p * a + q *
/// b`.
pub(crate) fn next_mixed(
    p: u64,
    a: &[(u32, i64)],
    i: usize,
    q: u64,
    b: &[(u32, i64)],
    j: usize,
) -> Next
    requires p_small { p < 2 ^ 20 }
    requires q_small { q < 2 ^ 20 }
    requires q_positive { 0 < q }
    requires left_normal { IsNormal (drop i a.now) }
    requires right_normal { IsNormal (drop j b.now) }
    requires left_small { All (λ t. unsigned_abs t.1 < 2 ^ 20) a.now }
    requires right_small { All (λ t. unsigned_abs t.1 < 2 ^ 20) b.now }
    requires left_within { i ≤ length a.now }
    requires right_within { j ≤ length b.now }
    requires more { i + j < length a.now + length b.now }
    ensures next { IsNextMixed p a.now i q b.now j result.var result.coef result.left result.right }
{
    if i < a.len() {
        let (v, c) = a[i];
        if j < b.len() {
            let (w, d) = b[j];
            if v < w {
                Next {
                    var: v,
                    coef: product(p, c),
                    left: i + 1,
                    right: j,
                }
            } else if w < v {
                Next {
                    var: w,
                    coef: product(q, d),
                    left: i,
                    right: j + 1,
                }
            } else {
                Next {
                    var: v,
                    coef: products(p, c, q, d),
                    left: i + 1,
                    right: j + 1,
                }
            }
        } else {
            Next {
                var: v,
                coef: product(p, c),
                left: i + 1,
                right: j,
            }
        }
    } else {
        let (w, d) = b[j];
        Next {
            var: w,
            coef: product(q, d),
            left: i,
            right: j + 1,
        }
    }
}

/// Writes the terms of `p * a + q * b`.
fn mix(
    p: u64,
    a: &[(u32, i64)],
    q: u64,
    b: &[(u32, i64)],
    out: &mut Vec<(u32, i64)>,
) -> Result<(), AllocError>
    requires p_small { p < 2 ^ 20 }
    requires q_small { q < 2 ^ 20 }
    requires q_positive { 0 < q }
    requires left_normal { IsNormal a.now }
    requires right_normal { IsNormal b.now }
    requires left_small { All (λ t. unsigned_abs t.1 < 2 ^ 20) a.now }
    requires right_small { All (λ t. unsigned_abs t.1 < 2 ^ 20) b.now }
    ensures { IfOk result (λ _. out.new.items ≡ mixed_terms (pos p) a.now (pos q) b.now) }
{
    out.clear();
    let mut i: usize = 0;
    let mut j: usize = 0;
    while i < a.len() || j < b.len() {
        let next = next_mixed(p, a, i, q, b, j);
        push_term(out, next.var, next.coef)?;
        i = next.left;
        j = next.right;
    }
    Ok(())
}

fn divide(terms: &mut Vec<(u32, i64)>, divisor: u64)
    requires positive { 0 < divisor }
    requires small { divisor < 2 ^ 20 }
    ensures { terms.new.items ≡ divided_terms divisor terms.old.items }
{
    for i in 0..terms.len() {
        let (v, c) = terms[i];
        terms[i] = (v, c / (divisor as i64));
    }
}

/// Writes the terms of a combination. Returns true only if the combination fits.
pub(crate) fn join_terms(
    x: u32,
    low: &Derived,
    up: &Derived,
    out: &mut Vec<(u32, i64)>,
) -> Result<bool, AllocError>
    requires low_derived { IsDerived low.now }
    requires up_derived { IsDerived up.now }
    requires low_small { IsSmall low.now }
    requires up_small { IsSmall up.now }
    requires lower { is_below_zero (coefficient x low.now.row.terms) ≡ true }
    requires upper { is_above_zero (coefficient x up.now.row.terms) ≡ true }
    ensures terms { IfOk result (λ b. b ≡ true
        → out.new.items ≡ (join x low.now up.now).row.terms) }
    ensures fits { IfOk result (λ b. b ≡ true → join_fits x low.now up.now ≡ true) }
{
    let p = up.size(x);
    let q = low.size(x);
    let left = &low.row;
    let right = &up.row;
    mix(p, &left.terms, q, &right.terms, out)?;
    let rest = products(p, left.rest, q, right.rest);
    let divisor = divisor_in(out, rest.unsigned_abs());
    if divisor >= 1 << 20 {
        return Ok(false);
    }
    if divisor > 1 {
        divide(out, divisor);
    }
    Ok(true)
}

/// Returns true only if each number of all rows of both lists is below 2^20 in absolute value.
pub(crate) fn both_small(lows: &[Derived], ups: &[Derived]) -> bool
    ensures { result ≡ true → (All IsSmall lows.now) × (All IsSmall ups.now) }
{
    if !all_small(lows) {
        return false;
    }
    all_small(ups)
}
