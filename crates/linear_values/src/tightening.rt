//! The integer rows of inequalities with fractions.

ghost use Rattle.std.specs.Prelude.{◌≡◌, [], ◌∷◌, ◌<◌, ◌^◌, ◌<ℤ◌, pos, length, unsigned_abs, IfOk};
ghost use Rattle.std.specs.Prelude.{MatchOption, Some, None, if◌then◌else◌, true, false};
ghost use Rattle.heyvl_num.specs.Rational.{Rational, ratio, ◌*ʳ◌};
ghost use Rattle.heyvl_num.specs.Rounding.{whole};
ghost use Rattle.heyvl_num.specs.Value.{is_zeroʳ};
ghost use Rattle.linear_rows.specs.Terms.{is_narrow};
ghost use Rattle.linear_values.specs.Lin.{AreNormal, all_fit, is_sized as lin_is_sized};
ghost use Rattle.linear_rows.specs.Numbers.{fits as number_fits};
ghost use Rattle.linear_rows.specs.TermResults.{are_narrow};
ghost use Rattle.linear_values.specs.Tightening.{factor, whole_terms, sign_of};
ghost use Rattle.linear_values.specs.Tightening.{rounded as rounded_constant};
ghost use Rattle.linear_values.specs.Tightening.{are_whole as variables_are_whole};
ghost use Rattle.linear_values.specs.Tightening.{tightened as row_tightened};
ghost use Rattle.linear_rows.specs.VariableTypes.{is_integral};
ghost use Rattle.linear_values.specs.WholeTimes.{AreWholeTimes};
ghost use Rattle.heylo_formula.specs.Typing.{types_in};
ghost use Rattle.linear_values.specs.Operator.{narrow_value};
ghost use Rattle.linear_values.specs.PlainValues.{lin_of};

use crate::lin::{Lin, is_sized};
use crate::multiples::{exact_multiple, small_product};
use crate::numbers::{as_whole, narrow};
use heylo_formula::Ty;
use heyvl_num::Frac;
use linear_rows::Row;
use std::alloc::{AllocError, Global};

/// Returns `k / x`, at low cost if `k` is the numerator of `x`.
fn quotient(k: i128, x: &Frac) -> Frac
    requires narrow { unsigned_abs k < 2 ^ 62 }
    requires sized { number_fits x.now ≡ true }
    requires nonzero { is_zeroʳ x.now ≡ false }
    ensures { (w : Rational) → w *ʳ x.now ≡ whole k → result ≡ w }
{
    if k == x.num() {
        denominator(x)
    } else {
        any_quotient(k, x)
    }
}

fn denominator(x: &Frac) -> Frac
    requires { number_fits x.now ≡ true }
    ensures { result ≡ whole (pos x.now.den) }
{
    Frac::new(x.den(), 1).unwrap()
}

fn any_quotient(k: i128, x: &Frac) -> Frac
    requires narrow { unsigned_abs k < 2 ^ 62 }
    requires sized { number_fits x.now ≡ true }
    requires nonzero { is_zeroʳ x.now ≡ false }
    ensures { (w : Rational) → w *ʳ x.now ≡ whole k → result ≡ w }
{
    Frac::new(k * x.den(), x.num()).unwrap()
}

/// Returns the sign of `x`: -1, 0 or 1.
fn sign(x: &Frac) -> i128
    ensures { result ≡ sign_of x.now.num }
{
    x.num().signum()
}

/// Returns the factor that makes the coefficients integers without a common divisor. There has to
/// be a term. Returns None only if one of these integers reaches 2^62.
#[cycle(factors)]
fn factor_of(terms: &[(u32, Frac)]) -> Option<Frac>
    requires some { 0 < length terms.now }
    requires normal { AreNormal terms.now }
    requires sized { all_fit terms.now ≡ true }
    ensures { MatchOption result (are_narrow (whole_terms (factor terms.now) terms.now) ≡ false)
        (λ w. w ≡ factor terms.now) }
{
    match terms.split_first() {
        None => None,
        Some((term, rest)) => {
            if rest.is_empty() {
                return Some(quotient(sign(&term.1), &term.1));
            }
            match factor_of(rest) {
                None => None,
                Some(w) => match small_product(&w, &term.1) {
                    None => None,
                    Some(product) => Some(quotient(product.num(), &term.1)),
                },
            }
        }
    }
}

/// Returns the coefficient `scale * factor * x` of a row, or None if it reaches 2^62.
fn coefficient(factor: &Frac, scale: i128, x: &Frac) -> Option<i64>
    requires positive { pos 0 <ℤ scale }
    requires sized { number_fits x.now ≡ true }
    requires whole { (factor.now *ʳ x.now).den ≡ 1 }
    ensures { result ≡ narrow_value ((ratio scale 1 *ʳ factor.now) *ʳ x.now).num }
{
    match small_product(factor, x) {
        None => None,
        Some(product) => match scale.checked_mul(product.num()) {
            None => None,
            Some(multiple) => narrow(multiple),
        },
    }
}

/// Returns the terms of a row, or None if a coefficient reaches 2^62.
fn coefficients(
    alloc: Global,
    factor: &Frac,
    scale: i128,
    terms: &[(u32, Frac)],
) -> Result<Option<Vec<(u32, i64)>>, AllocError>
    requires positive { pos 0 <ℤ scale }
    requires sized { all_fit terms.now ≡ true }
    requires whole { AreWholeTimes factor.now terms.now }
    ensures { IfOk result (λ o.
        MatchOption o (are_narrow (whole_terms (ratio scale 1 *ʳ factor.now) terms.now) ≡ false)
        (λ v. (v.items ≡ whole_terms (ratio scale 1 *ʳ factor.now) terms.now)
        × (are_narrow (whole_terms (ratio scale 1 *ʳ factor.now) terms.now) ≡ true))) }
{
    let mut made = Vec::with_capacity(alloc, terms.len())?;
    let mut rest = terms;
    'terms: while let Some((term, others)) = rest.split_first() {
        match coefficient(factor, scale, &term.1) {
            None => return Ok(None),
            Some(c) => made.push((term.0, c))?,
        }
        rest = others;
    }
    Ok(Some(made))
}

/// Returns whether `x` is of type `Int` or `UInt`.
fn is_whole(types: &[Ty], x: u32) -> bool
    ensures { result ≡ is_integral (types_in types.now x) }
{
    match types.get(x as usize) {
        None => false,
        Some(Ty::Bool) => false,
        Some(Ty::Int) => true,
        Some(Ty::UInt) => true,
        Some(Ty::UReal) => false,
    }
}

/// Returns whether all variables are of type `Int` or `UInt`.
fn are_whole(types: &[Ty], terms: &[(u32, Frac)]) -> bool
    ensures { result ≡ variables_are_whole (types_in types.now) terms.now }
{
    let mut rest = terms;
    'terms: while let Some((term, others)) = rest.split_first() {
        if !is_whole(types, term.0) {
            return false;
        }
        rest = others;
    }
    true
}

/// Returns the constant rounded up or, if `strict`, the next larger integer; None if it reaches
/// 2^62.
fn rounded(constant: &Frac, strict: bool) -> Option<i64>
    ensures { result ≡ narrow_value (rounded_constant strict constant.now) }
{
    if strict {
        match constant.floor().checked_add(1) {
            None => None,
            Some(next) => narrow(next),
        }
    } else {
        narrow(constant.ceil())
    }
}

/// Returns the row with these coefficients, or None if one of them reaches 2^62.
fn row(
    alloc: Global,
    factor: &Frac,
    scale: i128,
    terms: &[(u32, Frac)],
    rest: i64,
    strict: bool,
) -> Result<Option<Row>, AllocError>
    requires positive { pos 0 <ℤ scale }
    requires sized { all_fit terms.now ≡ true }
    requires whole { AreWholeTimes factor.now terms.now }
    ensures { IfOk result (λ o.
        o ≡ (if are_narrow (whole_terms (ratio scale 1 *ʳ factor.now) terms.now)
        then Some (record {
          terms = whole_terms (ratio scale 1 *ʳ factor.now) terms.now;
          rest = rest;
          strict = strict;
        }) else None)) }
{
    match coefficients(alloc, factor, scale, terms)? {
        None => Ok(None),
        Some(terms) => Ok(Some(Row {
            terms,
            rest,
            strict,
        })),
    }
}

/// Returns the row of an inequality with a variable, or None if a number of it overflows.
fn terms_tightened(
    alloc: Global,
    types: &[Ty],
    terms: &[(u32, Frac)],
    constant: &Frac,
    strict: bool,
) -> Result<Option<Row>, AllocError>
    requires some { 0 < length terms.now }
    requires normal { AreNormal terms.now }
    requires sized { lin_is_sized (record { terms = terms.now; rest = constant.now }) ≡ true }
    ensures { IfOk result (λ o.
        o ≡ row_tightened (types_in types.now)
        (record { left = record { terms = terms.now; rest = constant.now }; strict = strict })) }
{
    match factor_of(terms) {
        None => Ok(None),
        Some(factor) => match exact_multiple(&factor, constant) {
            None => Ok(None),
            Some(multiple) => {
                if are_whole(types, terms) {
                    match rounded(&multiple, strict) {
                        None => Ok(None),
                        Some(rest) => row(alloc, &factor, 1, terms, rest, false),
                    }
                } else {
                    match narrow(multiple.num()) {
                        None => Ok(None),
                        Some(rest) => row(alloc, &factor, multiple.den(), terms, rest, strict),
                    }
                }
            }
        },
    }
}

/// Returns the row of the inequality `left <= 0` or, if `strict`, `left < 0`, tightened to
/// integers.
///
/// The variables of `left` have to increase, and no coefficient may be 0. A variable without a type
/// counts as Boolean. Returns None exactly on overflow: a number of `left` reaches 2^62, the
/// product of the constant and its factor reaches 2^127, or a number of the row reaches 2^62.
pub fn tightened(
    alloc: Global,
    types: &[Ty],
    left: &Lin,
    strict: bool,
) -> Result<Option<Row>, AllocError>
    requires { AreNormal (lin_of left.now).terms }
    ensures { IfOk result (λ o.
        o ≡ row_tightened (types_in types.now)
        (record { left = lin_of left.now; strict = strict })) }
{
    if !is_sized(left) {
        return Ok(None);
    }
    if left.terms.is_empty() {
        return match narrow(sign(&left.rest)) {
            None => Ok(None),
            Some(rest) => Ok(Some(Row {
                terms: Vec::new(alloc),
                rest,
                strict,
            })),
        };
    }
    match unit_term(&left.terms) {
        None => terms_tightened(alloc, types, &left.terms, &left.rest, strict),
        Some((x, c)) => match as_whole(&left.rest) {
            None => terms_tightened(alloc, types, &left.terms, &left.rest, strict),
            Some(k) => unit_tightened(alloc, types, x, c, k, strict),
        },
    }
}

/// Returns the only term, if its coefficient is 1 or -1.
fn unit_term(terms: &[(u32, Frac)]) -> Option<(u32, i64)>
    ensures { MatchOption result (Unit {0}) (λ t. (terms.now ≡ (t.0, whole t.1) ∷ [])
        × (unsigned_abs t.1 ≡ 1)) }
{
    match terms.split_first() {
        None => None,
        Some((term, others)) => {
            if others.is_empty() {
                unit_of(term)
            } else {
                None
            }
        }
    }
}

/// Returns the term, if its coefficient is 1 or -1.
fn unit_of(term: &(u32, Frac)) -> Option<(u32, i64)>
    ensures { MatchOption result (Unit {0}) (λ t. (term.now ≡ (t.0, whole t.1))
        × (unsigned_abs t.1 ≡ 1)) }
{
    match as_whole(&term.1) {
        None => None,
        Some(c) => {
            if c.unsigned_abs() == 1 {
                Some((term.0, c))
            } else {
                None
            }
        }
    }
}

/// Returns the row of `c * x + k`, where `c` is 1 or -1, or None if the rounded constant overflows.
fn unit_tightened(
    alloc: Global,
    types: &[Ty],
    x: u32,
    c: i64,
    k: i64,
    strict: bool,
) -> Result<Option<Row>, AllocError>
    requires unit { unsigned_abs c ≡ 1 }
    requires small { is_narrow k ≡ true }
    ensures { IfOk result (λ o.
        o ≡ row_tightened (types_in types.now)
        (record { left = record { terms = (x, whole c) ∷ []; rest = whole k }; strict = strict })) }
{
    if is_whole(types, x) {
        match raised(k, strict) {
            None => Ok(None),
            Some(rest) => Ok(Some(unit_row(alloc, x, c, rest, false)?)),
        }
    } else {
        Ok(Some(unit_row(alloc, x, c, k, strict)?))
    }
}

/// Returns `k` or, if `strict`, `k + 1`; None if it reaches 2^62.
fn raised(k: i64, strict: bool) -> Option<i64>
    ensures { result ≡ narrow_value (rounded_constant strict (whole k)) }
{
    if strict {
        narrow(i128::from(k) + 1)
    } else {
        narrow(i128::from(k))
    }
}

/// Returns the row with the term `c * x`.
fn unit_row(alloc: Global, x: u32, c: i64, rest: i64, strict: bool) -> Result<Row, AllocError>
    ensures { IfOk result (λ r. r ≡ record { terms = (x, c) ∷ []; rest = rest; strict = strict }) }
{
    let mut terms = Vec::with_capacity(alloc, 1)?;
    terms.push((x, c))?;
    Ok(Row {
        terms,
        rest,
        strict,
    })
}
