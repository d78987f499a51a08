//! Values of terms in a state.

ghost use Rattle.std.specs.Prelude.{◌≡◌, IfSome, IfOk, is_some, set};
ghost use Rattle.heylo_formula.specs.PlainTrees.{term_of};
ghost use Rattle.heylo_formula.specs.Meaning.{term_value};
ghost use Rattle.heylo_formula.specs.State.{environment};
ghost use Rattle.heylo_formula.specs.Operators.{finite_part};
ghost use Rattle.heyvl_num.specs.ExtendedNumbers.{value_of};
ghost use Rattle.heyvl_acts.specs.PlainActs.{terms_of};
ghost use Rattle.run_machine.specs.BoundedStep.{exact_term, terms_fit};
ghost use Rattle.run_machine.specs.Configurations.{evaluate};

use heylo_formula::{Term, Val};
use heyvl_num::{Ext, Frac};
use quant_algebra::{At, Held, holds_at, value_at};
use std::alloc::{AllocError, Global};

/// Returns the value of a term without binders, or `None` if a number on the way overflows.
pub(crate) fn term_at(term: &Term, state: &[Val]) -> Option<Val>
    ensures exact { result ≡ exact_term (term_of term.now) state.now }
    ensures meaning { IfSome result
        (λ v. v ≡ term_value (term_of term.now) (environment state.now)) }
{
    match term {
        Term::Truth(cond) => match holds_at(cond, state) {
            Held::Yes => Some(Val::Truth(true)),
            Held::No => Some(Val::Truth(false)),
            Held::Bits => None,
        },
        Term::Num(form) => match value_at(form, state) {
            At::Value(value) => Some(Val::Num(finite(&value))),
            At::Bits => None,
        },
    }
}

/// Returns the number if it is finite, otherwise 0.
pub(crate) fn finite(value: &Ext) -> Frac
    ensures { result ≡ finite_part (value_of value.now) }
{
    match value {
        Ext::Fin(x) => *x,
        Ext::Inf => Frac::zero(),
    }
}

/// Returns the values of terms, in their order, or `None` if a number on the way overflows.
pub(crate) fn terms_at(
    alloc: Global,
    terms: &[Term],
    state: &[Val],
) -> Result<Option<Vec<Val>>, AllocError>
    ensures fits { IfOk result
        (λ values. is_some values ≡ terms_fit (terms_of terms.now) state.now) }
    ensures values { IfOk result
        (λ values. IfSome values
        (λ vs. vs.items ≡ evaluate (terms_of terms.now) (environment state.now))) }
{
    let mut values = Vec::new(alloc);
    for term in terms {
        match term_at(term, state) {
            None => return Ok(None),
            Some(value) => values.push(value)?,
        }
    }
    Ok(Some(values))
}

/// Assigns the value to the variable `x`, if there is one.
pub(crate) fn assign(state: &mut Vec<Val>, x: u32, value: Val)
    ensures { state.new.items ≡ set state.old.items x value }
{
    if let Some(old) = state.get_mut(x as usize) {
        *old = value;
    }
}
