//! Linear values.

ghost use Rattle.std.specs.Prelude.{◌≡◌, IfOk, true};
ghost use Rattle.linear_values.specs.Lin.{all_fit, is_sized as lin_is_sized};
ghost use Rattle.linear_values.specs.Lin.{constant as constant_lin, variable as variable_lin};
ghost use Rattle.linear_values.specs.Lin.{plus as lin_plus, minus as lin_minus};
ghost use Rattle.linear_values.specs.Lin.{scaled as lin_scaled, times as times_terms};
ghost use Rattle.linear_rows.specs.Numbers.{fits as number_fits};
ghost use Rattle.linear_values.specs.Operator.{has_no_terms, is_nothing as value_is_nothing};
ghost use Rattle.linear_values.specs.Kept.{IsKept};
ghost use Rattle.linear_values.specs.PlainValues.{lin_of, linear_of};

use crate::linear_terms::merged;
use crate::numbers::{fits, is_zero, product, signed, sum};
use heyvl_num::Frac;
use std::alloc::{AllocError, Global};

/// A linear value: a sum of multiples of variables, and a constant. A term is the number of a
/// variable and its coefficient; the variables increase, and no coefficient is 0.
#[derive(Drop)]
pub struct Lin {
    pub terms: Vec<(u32, Frac)>,
    pub rest: Frac,
}

/// Returns the linear value `x`, without variables.
pub fn constant(alloc: Global, x: Frac) -> Lin
    ensures { lin_of result ≡ constant_lin x }
{
    Lin {
        terms: Vec::new(alloc),
        rest: x,
    }
}

/// Returns the linear value that is the variable `x`.
pub fn variable(alloc: Global, x: u32) -> Result<Lin, AllocError>
    ensures { IfOk result (λ a. lin_of a ≡ variable_lin x) }
{
    let mut terms = Vec::with_capacity(alloc, 1)?;
    terms.push((x, Frac::one()))?;
    Ok(Lin {
        terms,
        rest: Frac::zero(),
    })
}

/// Returns whether `a` has no variables.
pub fn is_constant(a: &Lin) -> bool
    ensures { result ≡ has_no_terms (lin_of a.now).terms }
{
    a.terms.as_slice().split_first().is_none()
}

/// Returns whether `value` is the constant 0. None is infinity.
pub fn is_nothing(value: &Option<Lin>) -> bool
    ensures { result ≡ value_is_nothing (linear_of value.now) }
{
    match value {
        Some(a) => is_constant(a) && is_zero(&a.rest),
        None => false,
    }
}

/// Returns whether the numerators and denominators of all numbers are below 2^62 in absolute value.
#[tactic(auto, unfolding(crate::specs::Lin::is_sized))]
pub fn is_sized(a: &Lin) -> bool
    ensures { result ≡ lin_is_sized (lin_of a.now) }
{
    fits(&a.rest) && each_fits(&a.terms)
}

fn each_fits(terms: &[(u32, Frac)]) -> bool
    ensures { result ≡ all_fit terms.now }
{
    let mut rest = terms;
    'terms: while let Some((term, others)) = rest.split_first() {
        if !fits(&term.1) {
            return false;
        }
        rest = others;
    }
    true
}

/// Returns `a + b`.
#[tactic(auto, unfolding(crate::specs::Lin::plus))]
pub fn plus(alloc: Global, a: &Lin, b: &Lin) -> Result<Lin, AllocError>
    requires left { IsKept (lin_of a.now) }
    requires right { IsKept (lin_of b.now) }
    ensures { IfOk result (λ c. lin_of c ≡ lin_plus (lin_of a.now) (lin_of b.now)) }
{
    let terms = merged(alloc, &b.terms, false, &a.terms)?;
    Ok(Lin {
        terms,
        rest: sum(&a.rest, &b.rest),
    })
}

/// Returns `w * a`.
#[tactic(auto, unfolding(crate::specs::Lin::scaled))]
pub fn scaled(alloc: Global, w: &Frac, a: &Lin) -> Result<Lin, AllocError>
    requires factor { number_fits w.now ≡ true }
    requires value { IsKept (lin_of a.now) }
    ensures { IfOk result (λ c. lin_of c ≡ lin_scaled w.now (lin_of a.now)) }
{
    if is_zero(w) {
        Ok(constant(alloc, Frac::zero()))
    } else {
        let terms = times(alloc, w, &a.terms)?;
        Ok(Lin {
            terms,
            rest: product(w, &a.rest),
        })
    }
}

fn times(alloc: Global, w: &Frac, terms: &[(u32, Frac)]) -> Result<Vec<(u32, Frac)>, AllocError>
    requires factor { number_fits w.now ≡ true }
    requires coefficients { all_fit terms.now ≡ true }
    ensures { IfOk result (λ v. v.items ≡ times_terms w.now terms.now) }
{
    let mut made = Vec::with_capacity(alloc, terms.len())?;
    let mut rest = terms;
    'terms: while let Some((term, others)) = rest.split_first() {
        made.push((term.0, product(w, &term.1)))?;
        rest = others;
    }
    Ok(made)
}

/// Returns `a - b`.
pub fn minus(alloc: Global, a: &Lin, b: &Lin) -> Result<Lin, AllocError>
    requires left { IsKept (lin_of a.now) }
    requires right { IsKept (lin_of b.now) }
    ensures { IfOk result (λ c. lin_of c ≡ lin_minus (lin_of a.now) (lin_of b.now)) }
{
    let terms = merged(alloc, &b.terms, true, &a.terms)?;
    Ok(Lin {
        terms,
        rest: sum(&a.rest, &signed(&b.rest, true)),
    })
}

/// Returns a copy of `a`.
pub fn copy(alloc: Global, a: &Lin) -> Result<Lin, AllocError>
    ensures { IfOk result (λ c. lin_of c ≡ lin_of a.now) }
{
    Ok(Lin {
        terms: Vec::from_slice(alloc, &a.terms)?,
        rest: a.rest,
    })
}

/// Returns a copy of `a`. None is infinity.
pub fn copy_value(alloc: Global, a: &Option<Lin>) -> Result<Option<Lin>, AllocError>
    ensures { IfOk result (λ c. linear_of c ≡ linear_of a.now) }
{
    match a {
        None => Ok(None),
        Some(value) => Ok(Some(copy(alloc, value)?)),
    }
}
