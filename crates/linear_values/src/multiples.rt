//! Multiples of linear values by fractions.

ghost use Rattle.std.specs.Prelude.{◌≡◌, IfOk, MatchOption, true, false};
ghost use Rattle.heyvl_num.specs.Exact.{exact_product};
ghost use Rattle.linear_values.specs.Kept.{IsKept};
ghost use Rattle.linear_values.specs.Lin.{all_fit, is_sized as lin_is_sized, scaled as lin_scaled};
ghost use Rattle.linear_values.specs.Lin.{times as times_terms};
ghost use Rattle.linear_rows.specs.Numbers.{fits as number_fits};
ghost use Rattle.linear_values.specs.Operator.{small_product as product_of};
ghost use Rattle.linear_values.specs.PlainValues.{lin_of};

use crate::lin::{Lin, constant};
use crate::numbers::{fits, fitting, is_one, is_zero, product};
use heyvl_num::Frac;
use std::alloc::{AllocError, Global};

/// Returns `w * c`, if its numerator and denominator are below 2^62; those of `c` are.
pub fn small_product(w: &Frac, c: &Frac) -> Option<Frac>
    requires { number_fits c.now ≡ true }
    ensures { result ≡ product_of w.now c.now }
{
    if is_one(w) {
        Some(*c)
    } else if fits(w) {
        if is_one(c) {
            Some(*w)
        } else {
            fitting(product(w, c))
        }
    } else {
        crosswise_product(w, c)
    }
}

/// Returns the same as `small_product` for any `w`. The factors are reduced crosswise first, so
/// that no intermediate product overflows unless the result does.
fn crosswise_product(w: &Frac, c: &Frac) -> Option<Frac>
    requires { number_fits c.now ≡ true }
    ensures { result ≡ product_of w.now c.now }
{
    if is_zero(c) {
        return Some(Frac::zero());
    }
    let left = Frac::new(w.num(), c.den())?;
    let right = Frac::new(c.num(), w.den())?;
    let product = left.mul(&right)?;
    if fits(&product) { Some(product) } else { None }
}

/// Returns `w * c`, or None if an intermediate integer overflows.
pub(crate) fn exact_multiple(w: &Frac, c: &Frac) -> Option<Frac>
    requires { number_fits c.now ≡ true }
    ensures { result ≡ exact_product w.now c.now }
{
    if fits(w) {
        Some(product(w, c))
    } else {
        w.mul(c)
    }
}

/// Returns `terms` with each coefficient multiplied by `w`, if all products are below 2^62.
fn small_terms(
    alloc: Global,
    w: &Frac,
    terms: &[(u32, Frac)],
) -> Result<Option<Vec<(u32, Frac)>>, AllocError>
    requires { all_fit terms.now ≡ true }
    ensures { IfOk result (λ o.
        MatchOption o (all_fit (times_terms w.now terms.now) ≡ false)
        (λ v. (v.items ≡ times_terms w.now terms.now)
        × (all_fit (times_terms w.now terms.now) ≡ true))) }
{
    let mut made = Vec::with_capacity(alloc, terms.len())?;
    let mut rest = terms;
    'terms: while let Some((term, others)) = rest.split_first() {
        match small_product(w, &term.1) {
            None => return Ok(None),
            Some(c) => made.push((term.0, c))?,
        }
        rest = others;
    }
    Ok(Some(made))
}

/// Returns `w * a`, or None if a numerator or denominator of it reaches 2^62.
pub fn small_multiple(alloc: Global, w: &Frac, a: &Lin) -> Result<Option<Lin>, AllocError>
    requires { IsKept (lin_of a.now) }
    ensures { IfOk result (λ o.
        MatchOption o (lin_is_sized (lin_scaled w.now (lin_of a.now)) ≡ false)
        (λ b. (lin_of b ≡ lin_scaled w.now (lin_of a.now))
        × (lin_is_sized (lin_scaled w.now (lin_of a.now)) ≡ true))) }
{
    if is_zero(w) {
        return Ok(Some(constant(alloc, Frac::zero())));
    }
    match small_product(w, &a.rest) {
        None => Ok(None),
        Some(rest) => match small_terms(alloc, w, &a.terms)? {
            None => Ok(None),
            Some(terms) => Ok(Some(Lin { terms, rest })),
        },
    }
}
