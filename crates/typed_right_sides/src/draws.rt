//! The parts of draws: weights and their values.

ghost use Rattle.heylo_formula.specs.Formula.Cond.{constant};
ghost use Rattle.heylo_formula.specs.Formula.Term.{truth};
ghost use Rattle.heylo_formula.specs.PlainTrees.{term_of};
ghost use Rattle.heyvl_acts.specs.PlainActs.{parts_of};
ghost use Rattle.heyvl_acts.specs.Tosses.{flip_parts};
ghost use Rattle.heyvl_num.specs.Rational.{oneʳ, ratio, ◌-ʳ◌};
ghost use Rattle.static_rules.specs.Literals.{ends_wrong, is_too_wide};
ghost use Rattle.static_rules.specs.StatementActs.{integer_parts, unif_parts, whole_term};
ghost use Rattle.std.specs.Int.Signed.{le_z};
ghost use Rattle.std.specs.Prelude.{◌+ℤ◌, ◌+◌, ◌<◌, ◌^◌, ◌≡◌, ◌≤◌, IfOk, Some, false, pos, true};
ghost use Rattle.std.specs.Prelude.{unsigned_abs};

use crate::weights::fraction;
use heylo_formula::{Cond, Form, Term};
use heyvl_num::{Ext, Frac};
use std::alloc::{AllocError, Global};

/// Returns a truth value as a term.
fn truth(value: bool) -> Term
    ensures { term_of result ≡ truth (constant value) }
{
    Term::Truth(Cond::Const(value))
}

/// Returns an integer as a fraction.
fn whole(number: i128) -> Frac
    requires { unsigned_abs number < 2 ^ 127 }
    ensures { result ≡ ratio number 1 }
{
    Frac::new(number, 1).unwrap()
}

/// Returns an integer as a term.
fn whole_term(number: i128) -> Term
    requires { unsigned_abs number < 2 ^ 127 }
    ensures { term_of result ≡ whole_term number }
{
    Term::Num(Form::Const(Ext::Fin(whole(number))))
}

/// Returns one minus the probability.
fn complement(probability: Frac) -> Frac
    requires { is_too_wide probability ≡ false }
    ensures { result ≡ oneʳ -ʳ probability }
{
    whole(1).sub(&probability).unwrap()
}

/// Returns true with the probability, and false with the rest.
pub(crate) fn flip_parts(alloc: Global, probability: Frac) -> Result<Vec<(Frac, Term)>, AllocError>
    requires { is_too_wide probability ≡ false }
    ensures { IfOk result (λ parts. parts_of parts.items ≡ flip_parts probability) }
{
    let mut parts = Vec::with_capacity(alloc, 2)?;
    parts.push((probability, truth(true)))?;
    parts.push((complement(probability), truth(false)))?;
    Ok(parts)
}

/// Returns the weight of each of `count` equally likely values.
fn equal_weight(count: u32) -> Frac
    requires { 1 ≤ count }
    ensures { result ≡ ratio (pos 1) count }
{
    fraction(1, i128::from(count))
}

/// Returns the `count` integers from `low` on, each with the same weight.
fn integer_parts(
    alloc: Global,
    weight: Frac,
    low: i128,
    count: u32,
) -> Result<Vec<(Frac, Term)>, AllocError>
    requires low { unsigned_abs low < 2 ^ 127 }
    requires high { unsigned_abs (low +ℤ pos count) < 2 ^ 127 + 1 }
    ensures { IfOk result (λ parts. parts_of parts.items ≡ integer_parts weight low count) }
{
    let mut parts = Vec::with_capacity(alloc, count as usize)?;
    for step in 0..count {
        parts.push((weight, whole_term(low + i128::from(step))))?;
    }
    Ok(parts)
}

/// Returns the integers from `low` to `high`, each with the same weight.
pub(crate) fn unif_parts(
    alloc: Global,
    low: i128,
    high: i128,
) -> Result<Vec<(Frac, Term)>, AllocError>
    requires ends { ends_wrong (Some low) (Some high) ≡ false }
    requires low { unsigned_abs low < 2 ^ 127 }
    requires high { unsigned_abs high < 2 ^ 127 }
    ensures { IfOk result (λ parts. parts_of parts.items ≡ unif_parts (Some low) (Some high)) }
{
    let count = (high - low) as u32 + 1;
    integer_parts(alloc, equal_weight(count), low, count)
}
