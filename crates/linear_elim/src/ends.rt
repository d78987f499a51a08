//! The ends that the rows of a step give to the interval of its variable.
ghost use Rattle.std.specs.Prelude.{◌≡◌, ◌↔◌, ◌&&◌, negsuc, true, not, Some, Option, MatchResult};
ghost use Rattle.std.specs.List.{All, list_any};
ghost use Rattle.heyvl_num.specs.Rational.{Rational};
ghost use Rattle.heyvl_num.specs.Rounding.{whole};
ghost use Rattle.heyvl_num.specs.Exact.{exact_product, exact_quotient};
ghost use Rattle.linear_rows.specs.Numbers.{fits as number_fits};
ghost use Rattle.linear_rows.specs.Row.{IsRow};
ghost use Rattle.linear_rows.specs.GreedyPoint.{chosen_value};
ghost use Rattle.linear_elim.specs.internal.DerivedRows.{IsDerived};
ghost use Rattle.linear_elim.specs.ChoiceNumbers.{added, sum_without as exact_sum_without, end_of};
ghost use Rattle.linear_elim.specs.ChoiceNumbers.{end_fits};
ghost use Rattle.interval_choice.specs.Sides.{IsWithin};
ghost use Rattle.linear_elim.specs.internal.ChoiceSteps.{narrow_end, IsTightest};

use crate::joins::Derived;
use heyvl_num::Frac;
use interval_choice::{End, Side, fits, order, whole_of};
use linear_rows::{Row, TooGreat, coefficient_of};
use std::cmp::Ordering;

/// Returns the value chosen for `x`, 0 if there is none.
pub(crate) fn value_of(chosen: &[(u32, Frac)], x: u32) -> Frac
    ensures { result ≡ chosen_value x chosen.now }
{
    for &(v, value) in chosen {
        if v == x {
            return value;
        }
    }
    Frac::zero()
}

fn with_term(sum: &Frac, c: i64, value: &Frac) -> Option<Frac>
    ensures { result ≡ added (Some sum.now) (exact_product (whole c) value.now) }
{
    let product = whole_of(c).mul(value)?;
    sum.add(&product)
}

/// Returns the sum of the row's constant and its terms except that of `x`, at the chosen values.
fn sum_without(row: &Row, x: u32, chosen: &[(u32, Frac)]) -> Option<Frac>
    ensures { result ≡ exact_sum_without x chosen.now row.now.terms (Some (whole row.now.rest)) }
{
    let mut sum = whole_of(row.rest);
    for &(v, c) in &row.terms {
        if v != x {
            let value = value_of(chosen, v);
            sum = with_term(&sum, c, &value)?;
        }
    }
    Some(sum)
}

fn minus_one_over(c: i64) -> Option<Frac>
    ensures { result ≡ exact_quotient (negsuc 0) c }
{
    Frac::new(-1, i128::from(c))
}

/// Returns the place of the end that a row gives to `x`.
fn row_place(row: &Row, x: u32, chosen: &[(u32, Frac)]) -> Option<Frac>
    requires { IsRow row.now }
    ensures { result ≡ end_of x chosen.now row.now }
{
    let sum = sum_without(row, x, chosen)?;
    let coefficient = coefficient_of(&row.terms, x);
    let factor = minus_one_over(coefficient)?;
    sum.mul(&factor)
}

/// Returns the end that a row gives to `x`, or None if a number of it overflows.
fn row_end(row: &Row, x: u32, chosen: &[(u32, Frac)]) -> Option<End>
    requires { IsRow row.now }
    ensures { result ≡ narrow_end x chosen.now row.now }
{
    let place = row_place(row, x, chosen)?;
    if fits(&place) {
        Some(End {
            place,
            inside: !row.strict,
        })
    } else {
        None
    }
}

fn both(a: bool, b: bool) -> bool
    ensures { result ≡ (a && b) }
{
    a && b
}

/// Returns the end of the intersection of two intervals on one side.
fn tighter(side: Side, a: End, b: End) -> End
    requires first { number_fits a.place ≡ true }
    requires second { number_fits b.place ≡ true }
    ensures fits { number_fits result.place ≡ true }
    ensures values { (v : Rational) → IsWithin side result v
        ↔ (IsWithin side a v × IsWithin side b v) }
{
    match (order(&a.place, &b.place), side) {
        (Ordering::Equal, _) => End {
            place: a.place,
            inside: both(a.inside, b.inside),
        },
        (Ordering::Less, Side::Low) => b,
        (Ordering::Less, Side::High) => a,
        (Ordering::Greater, Side::Low) => a,
        (Ordering::Greater, Side::High) => b,
    }
}

/// Returns the tightest end of those that the rows give to `x`: None if there are no rows, an error
/// if a number of one of the ends overflows.
pub(crate) fn tightest(
    side: Side,
    rows: &[Derived],
    x: u32,
    chosen: &[(u32, Frac)],
) -> Result<Option<End>, TooGreat>
    requires { All IsDerived rows.now }
    ensures { MatchResult result (λ o. IsTightest side x chosen.now rows.now o)
        (λ e. list_any (λ r. not (end_fits (end_of x chosen.now r.row))) rows.now ≡ true) }
{
    let mut found: Option<End> = None;
    for r in rows {
        let Some(end) = row_end(&r.row, x, chosen) else {
            return Err(TooGreat);
        };
        found = match found {
            None => Some(end),
            Some(before) => Some(tighter(side, before, end)),
        };
    }
    Ok(found)
}
