//! Combinations of the first rows, and the combination of two rows in which a variable vanishes.
ghost use Rattle.std.specs.Prelude.{◌≡◌, ◌<◌, ◌^◌, ◌*◌, ◌/◌, ◌+ℤ◌, ◌*ℤ◌, ◌<ℤ◌, ◌||◌, ◌&&◌, ℤ, pos};
ghost use Rattle.std.specs.Prelude.{unsigned_abs, true, is_some, IfOk, IfSome, SomeIff};
ghost use Rattle.linear_rows.specs.Terms.{coefficient};
ghost use Rattle.linear_rows.specs.TermResults.{mixed_terms, are_wide};
ghost use Rattle.linear_rows.specs.Divisors.{divisor};
ghost use Rattle.linear_rows.specs.Row.{IsRow};
ghost use Rattle.linear_elim.specs.Joins.{Derived as DerivedValue, is_below_zero, is_above_zero};
ghost use Rattle.linear_elim.specs.Joins.{join, join_fits, size};
ghost use Rattle.linear_elim.specs.internal.DerivedRows.{IsDerived, derived_parts, parts_fit};

use linear_rows::{Row, coefficient_of, divided, divisor_of, mixed, narrow_quotient};
use std::alloc::{AllocError, Global};
use std::marker::Model;

/// A combination of the first rows: `row` times the denominator `over` is the sum of the first
/// rows, each times its multiplier in `shares`. Multipliers are pairs of a row's index and a
/// number.
#[derive(Drop, Debug)]
pub struct Derived {
    pub row: Row,
    pub shares: Vec<(u32, i64)>,
    pub over: u64,
}

impl Model for Derived {
    ghost Value = { DerivedValue };

    ghost view = { λ d. record { row = d.row; shares = d.shares.items; over = d.over } };
}

/// A row before it is divided to lowest terms.
#[derive(Drop)]
struct WideRow {
    terms: Vec<(u32, i128)>,
    rest: i128,
    strict: bool,
}

fn product(a: u64, b: u64) -> i128
    requires left_narrow { a < 2 ^ 62 }
    requires right_narrow { b < 2 ^ 62 }
    ensures value { result ≡ pos (a * b) }
    ensures small { a * b < 2 ^ 124 }
    ensures positive { 0 < a → 0 < b → pos 0 <ℤ result }
{
    (a as i128) * (b as i128)
}

impl Derived {
    pub(crate) fn size(&self, x: u32) -> u64
        requires { IsDerived self.now }
        ensures value { result ≡ size x self.now }
        ensures narrow { result < 2 ^ 62 }
    {
        let row = &self.row;
        coefficient_of(&row.terms, x).unsigned_abs()
    }
}

impl WideRow {
    fn divisor(&self) -> u128
        ensures value { result ≡ divisor self.now.terms.items (unsigned_abs self.now.rest) }
        ensures positive { 0 < result }
    {
        divisor_of(&self.terms, self.rest.unsigned_abs())
    }
}

/// Returns the product of both denominators and `divisor`, or None if it is 2^126 or more.
fn wide_over(low: &Derived, up: &Derived, divisor: u128) -> Option<u128>
    requires low_derived { IsDerived low.now }
    requires up_derived { IsDerived up.now }
    ensures { SomeIff result (low.now.over * up.now.over * divisor < 2 ^ 126)
        (low.now.over * up.now.over * divisor) }
{
    let first = product(low.over, up.over) as u128;
    let whole = first.checked_mul(divisor)?;
    if whole < 1 << 126 { Some(whole) } else { None }
}

fn side(p: u64, a: i64) -> i128
    requires left_narrow { p < 2 ^ 62 }
    requires right_narrow { unsigned_abs a < 2 ^ 62 }
    ensures value { result ≡ pos p *ℤ a }
    ensures small { unsigned_abs (pos p *ℤ a) < 2 ^ 124 }
{
    (p as i128) * (a as i128)
}

fn mixed_rest(p: u64, a: i64, q: u64, b: i64) -> i128
    requires p_narrow { p < 2 ^ 62 }
    requires q_narrow { q < 2 ^ 62 }
    requires a_narrow { unsigned_abs a < 2 ^ 62 }
    requires b_narrow { unsigned_abs b < 2 ^ 62 }
    ensures { result ≡ (pos p *ℤ a) +ℤ (pos q *ℤ b) }
{
    let left = side(p, a);
    let right = side(q, b);
    left + right
}

fn either(a: bool, b: bool) -> bool
    ensures { result ≡ (a || b) }
{
    a || b
}

fn mixed_row_terms(
    alloc: Global,
    p: u64,
    a: &Row,
    q: u64,
    b: &Row,
) -> Result<Option<Vec<(u32, i128)>>, AllocError>
    requires p_positive { 0 < p }
    requires q_positive { 0 < q }
    requires p_narrow { p < 2 ^ 62 }
    requires q_narrow { q < 2 ^ 62 }
    requires left { IsRow a.now }
    requires right { IsRow b.now }
    ensures terms { IfOk result
        (λ o. IfSome o (λ ts. ts.items ≡ mixed_terms (pos p) a.now.terms (pos q) b.now.terms)) }
    ensures some { IfOk result (λ o. is_some o ≡ true) }
{
    mixed(alloc, p as i128, &a.terms, q as i128, &b.terms)
}

/// Returns the row `p * a + q * b`.
fn mixed_row(alloc: Global, p: u64, a: &Row, q: u64, b: &Row) -> Result<Option<WideRow>, AllocError>
    requires p_positive { 0 < p }
    requires q_positive { 0 < q }
    requires p_narrow { p < 2 ^ 62 }
    requires q_narrow { q < 2 ^ 62 }
    requires left { IsRow a.now }
    requires right { IsRow b.now }
    ensures terms { IfOk result
        (λ o. IfSome o (λ w. w.terms.items ≡ mixed_terms (pos p) a.now.terms (pos q) b.now.terms)) }
    ensures rest { IfOk result
        (λ o. IfSome o (λ w. w.rest ≡ (pos p *ℤ a.now.rest) +ℤ (pos q *ℤ b.now.rest))) }
    ensures strict { IfOk result (λ o. IfSome o (λ w. w.strict ≡ (a.now.strict || b.now.strict))) }
    ensures some { IfOk result (λ o. is_some o ≡ true) }
{
    let Some(terms) = mixed_row_terms(alloc, p, a, q, b)? else {
        return Ok(None);
    };
    Ok(Some(WideRow {
        terms,
        rest: mixed_rest(p, a.rest, q, b.rest),
        strict: either(a.strict, b.strict),
    }))
}

/// Returns the multipliers of a combination before they are divided to lowest terms, or None if a
/// product reaches 2^126.
fn mixed_shares(
    alloc: Global,
    p: u64,
    low: &Derived,
    q: u64,
    up: &Derived,
) -> Result<Option<Vec<(u32, i128)>>, AllocError>
    requires p_positive { 0 < p }
    requires q_positive { 0 < q }
    requires p_narrow { p < 2 ^ 62 }
    requires q_narrow { q < 2 ^ 62 }
    requires low_derived { IsDerived low.now }
    requires up_derived { IsDerived up.now }
    ensures shares { IfOk result
        (λ o. IfSome o
        (λ ms. ms.items ≡ mixed_terms (pos (p * up.now.over)) low.now.shares
        (pos (q * low.now.over)) up.now.shares)) }
    ensures fits { IfOk result
        (λ o. is_some o
        ≡ (are_wide (pos (p * up.now.over)) low.now.shares
        && are_wide (pos (q * low.now.over)) up.now.shares)) }
{
    let left = product(p, up.over);
    let right = product(q, low.over);
    mixed(alloc, left, &low.shares, right, &up.shares)
}

fn narrow_over(over: u128) -> Option<u64>
    ensures { SomeIff result (over < 2 ^ 62) over }
{
    if over < 1 << 62 {
        Some(over as u64)
    } else {
        None
    }
}

/// Returns the divided row, with its multipliers in lowest terms, or None if a number of it reaches
/// 2^62.
fn lowered(
    alloc: Global,
    wide: &WideRow,
    divisor: u128,
    shares: &[(u32, i128)],
    over: u128,
) -> Result<Option<Derived>, AllocError>
    requires positive { 0 < divisor }
    ensures derived { IfOk result
        (λ o. IfSome o
        (λ d. d ≡ derived_parts wide.now.terms.items wide.now.rest wide.now.strict divisor
        shares.now over)) }
    ensures fits { IfOk result
        (λ o. is_some o
        ≡ parts_fit (derived_parts wide.now.terms.items wide.now.rest wide.now.strict divisor
        shares.now over)) }
{
    let Some(terms) = divided(alloc, &wide.terms, divisor)? else {
        return Ok(None);
    };
    let Some(rest) = narrow_quotient(wide.rest, divisor) else {
        return Ok(None);
    };
    let common = divisor_of(shares, over);
    let Some(shares) = divided(alloc, shares, common)? else {
        return Ok(None);
    };
    let Some(over) = narrow_over(over / common) else {
        return Ok(None);
    };
    let row = Row {
        terms,
        rest,
        strict: wide.strict,
    };
    Ok(Some(Derived { row, shares, over }))
}

/// Returns the combination of `low`, with a negative coefficient of `x`, and `up`, with a positive
/// one, in which `x` vanishes; None if an intermediate product reaches 2^126, or a number of the
/// combination reaches 2^62.
pub fn joined(
    alloc: Global,
    low: &Derived,
    up: &Derived,
    x: u32,
) -> Result<Option<Derived>, AllocError>
    requires low_derived { IsDerived low.now }
    requires up_derived { IsDerived up.now }
    requires lower { is_below_zero (coefficient x low.now.row.terms) ≡ true }
    requires upper { is_above_zero (coefficient x up.now.row.terms) ≡ true }
    ensures derived { IfOk result (λ o. IfSome o (λ d. d ≡ join x low.now up.now)) }
    ensures fits { IfOk result (λ o. is_some o ≡ join_fits x low.now up.now) }
{
    let p = up.size(x);
    let q = low.size(x);
    let Some(wide) = mixed_row(alloc, p, &low.row, q, &up.row)? else {
        return Ok(None);
    };
    let divisor = wide.divisor();
    let Some(shares) = mixed_shares(alloc, p, low, q, up)? else {
        return Ok(None);
    };
    let Some(over) = wide_over(low, up, divisor) else {
        return Ok(None);
    };
    lowered(alloc, &wide, divisor, &shares, over)
}
