//! Points over one common denominator, and the rows that they satisfy.
ghost use Rattle.std.specs.Prelude.{◌≡◌, ◌+ℤ◌, ◌*ℤ◌, ◌<◌, ◌≤◌, ℤ, true, IfSome, length, take};
ghost use Rattle.linear_rows.specs.Terms.{sum_at};
ghost use Rattle.linear_rows.specs.Points.{IsBelow};
ghost use Rattle.linear_rows.specs.Solutions.{IsSolvable};
ghost use Rattle.linear_guess.specs.Spots.{top_at, IsMetBy, AreMetBy};

use linear_rows::{Row, solutions_of_rows};
use std::alloc::Global;

/// A point: the value of variable `x` is `tops[x] / below`, and 0 beyond the list.
#[derive(Drop)]
pub struct Spot {
    pub below: u64,
    pub tops: Vec<i64>,
}

impl Spot {
    /// Returns the point at which each variable is 0.
    pub fn origin(alloc: Global) -> Spot
        ensures { result.below ≡ 1 }
    {
        Spot {
            below: 1,
            tops: Vec::new(alloc),
        }
    }
}

fn top_of(tops: &[i64], x: u32) -> i64
    ensures { result ≡ top_at tops.now x }
{
    match tops.get(x as usize) {
        Some(top) => *top,
        None => 0,
    }
}

/// Returns `sum + a * b`, or None on overflow.
pub(crate) fn with_product(sum: i128, a: i128, b: i128) -> Option<i128>
    ensures { IfSome result (λ z. z ≡ sum +ℤ (a *ℤ b)) }
{
    let product = a.checked_mul(b)?;
    sum.checked_add(product)
}

/// Returns `sum` plus the term of `x` at a point, times its denominator, or None on overflow.
fn with_term(tops: &[i64], x: u32, c: i64, sum: i128) -> Option<i128>
    ensures { IfSome result (λ z. z ≡ (c *ℤ top_at tops.now x) +ℤ sum) }
{
    let top = top_of(tops, x);
    let product = i128::from(c).checked_mul(i128::from(top))?;
    product.checked_add(sum)
}

/// Returns the sum of the terms at a point, times its denominator, or None on overflow.
fn terms_at(terms: &[(u32, i64)], tops: &[i64]) -> Option<i128>
    ensures { IfSome result (λ z. z ≡ sum_at (top_at tops.now) terms.now) }
{
    let mut sum: i128 = 0;
    for &(x, c) in terms {
        let Some(next) = with_term(tops, x, c, sum) else {
            return None;
        };
        sum = next;
    }
    Some(sum)
}

/// Returns true only if `left` is at most 0 and, if `strict`, below 0.
fn is_below(strict: bool, left: i128) -> bool
    ensures { result ≡ true → IsBelow strict left }
{
    if strict { left < 0 } else { left <= 0 }
}

/// Returns true only if a point satisfies `row`.
pub(crate) fn is_met(row: &Row, below: u64, tops: &[i64]) -> bool
    ensures { result ≡ true → IsMetBy below tops.now row.now }
{
    let Some(sum) = terms_at(&row.terms, tops) else {
        return false;
    };
    let Some(left) = with_product(sum, i128::from(row.rest), i128::from(below)) else {
        return false;
    };
    is_below(row.strict, left)
}

/// Returns how many of the first rows a point satisfies, at least `from`; it satisfies the first
/// `from` rows.
pub(crate) fn met_from(rows: &[Row], spot: &Spot, from: usize) -> usize
    requires { from ≤ length rows.now }
    ensures within { result ≤ length rows.now }
    ensures met { AreMetBy spot.now.below spot.now.tops.items (take from rows.now)
        → AreMetBy spot.now.below spot.now.tops.items (take result rows.now) }
{
    for i in from..rows.len() {
        if !is_met(&rows[i], spot.below, &spot.tops) {
            return i;
        }
    }
    rows.len()
}

/// States that rows that a point satisfies are solvable.
pub(crate) fn solved_by(spot: &Spot, rows: &[Row])
    requires positive { 0 < spot.now.below }
    requires met { AreMetBy spot.now.below spot.now.tops.items rows.now }
    ensures { IsSolvable rows.now }
{
    solutions_of_rows();
}
