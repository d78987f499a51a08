//! The parts of a `choose`: weights and values.

ghost use Rattle.heyvl_num.specs.Rational.{leqʳ, oneʳ, zeroʳ, ◌+ʳ◌};
ghost use Rattle.heyvl_syntax.specs.Expressions.{expression};
ghost use Rattle.heyvl_syntax.specs.Statements.{choices};
ghost use Rattle.typed_expressions.specs.Answers.{Gives, TellsFirst};
ghost use Rattle.static_rules.specs.Literals.{is_over_zero, is_too_wide, is_usable, sums_wrong};
ghost use Rattle.static_rules.specs.Literals.{weigh_wrong};
ghost use Rattle.static_rules.specs.RightSides.{choices_findings, weight_findings, weights};
ghost use Rattle.static_rules.specs.StatementActs.{choose_parts};
ghost use Rattle.typed_right_sides.specs.internal.RightSideParts.{choices_of, types_of_choices};
ghost use Rattle.std.specs.List.{list_any};
ghost use Rattle.std.specs.Prelude.{◌&&◌, ◌≡◌, None, Some, false, if◌then◌else◌, not};

use crate::typed_values::{Value, read_value};
use crate::value_types::ValueType;
use crate::weights::{
    at_least_one, at_most_one, is_over_zero, is_too_wide, is_usable, is_weight_literal, weight_of,
    weight_value,
};
use heylo_formula::Term;
use heyvl_num::Frac;
use heyvl_syntax::Expr;
use std::alloc::Global;
use typed_expressions::{Demand, ResolveStop, Scope, read};

/// The weighted values of a `choose` in their order, and the types of the values.
#[derive(Drop)]
pub(crate) struct Choices {
    pub(crate) parts: Vec<(Frac, Term)>,
    pub(crate) types: Vec<Option<ValueType>>,
}

/// The largest number of values in a `choose`.
const MAX_CHOICES: usize = 16;

/// Returns the first error in a weight. A weight literal has none.
pub(crate) fn read_weight(
    alloc: Global,
    scope: &Scope,
    next: u32,
    e: &Expr,
) -> Result<(), ResolveStop>
    ensures { TellsFirst result (weight_findings next scope.now (expression e.now)) }
{
    if is_weight_literal(weight_of(e)) {
        return Ok(());
    }
    read(alloc, scope, next, e, Demand::Any)?;
    Ok(())
}

/// Elaborates the parts of a `choose`, or returns the first error in them.
pub(crate) fn read_choices(
    alloc: Global,
    scope: &Scope,
    next: u32,
    all: &[(Expr, Expr)],
) -> Result<Choices, ResolveStop>
    ensures { Gives choices_of result (choices_findings next scope.now (choices all.now)) (
      choose_parts next scope.now (choices all.now),
      types_of_choices next scope.now (choices all.now),
    ) }
{
    let mut parts = Vec::with_capacity(alloc, all.len())?;
    let mut types = Vec::with_capacity(alloc, all.len())?;
    for (likely, e) in all {
        read_weight(alloc, scope, next, likely)?;
        let Value { term, ty } = read_value(alloc, scope, next, e)?;
        parts.push((weight_value(weight_of(likely)), term))?;
        types.push(ty)?;
    }
    Ok(Choices { parts, types })
}

/// Returns true if one of the weights is not a weight literal, or is too wide.
fn any_unusable(all: &[(Expr, Expr)]) -> bool
    ensures { result ≡ list_any (λ w. not (is_usable w)) (weights (choices all.now)) }
{
    for (likely, _) in all {
        if !is_usable(weight_of(likely)) {
            return true;
        }
    }
    false
}

/// Returns true if one of the weights has the divisor 0.
pub(crate) fn any_over_zero(all: &[(Expr, Expr)]) -> bool
    ensures { result ≡ list_any is_over_zero (weights (choices all.now)) }
{
    for (likely, _) in all {
        if is_over_zero(weight_of(likely)) {
            return true;
        }
    }
    false
}

/// Returns the sum, or `None` if it is too wide.
fn sum(left: Frac, right: Frac) -> Option<Frac>
    requires left { is_too_wide left ≡ false }
    requires right { is_too_wide right ≡ false }
    ensures { result ≡ if is_too_wide (left +ʳ right) then None else Some (left +ʳ right) }
{
    let sum = left.add(&right)?;
    if is_too_wide(sum) { None } else { Some(sum) }
}

/// Returns true for 1.
fn is_one(value: Frac) -> bool
    ensures { result ≡ leqʳ value oneʳ && leqʳ oneʳ value }
{
    at_most_one(value) && at_least_one(value)
}

/// Returns true if the weights do not sum to 1, or a partial sum is too wide.
fn sums_wrong(all: &[(Expr, Expr)]) -> bool
    ensures { result ≡ sums_wrong zeroʳ (weights (choices all.now)) }
{
    let mut total = Frac::zero();
    for (likely, _) in all {
        match sum(total, weight_value(weight_of(likely))) {
            Some(more) => total = more,
            None => return true,
        }
    }
    !is_one(total)
}

/// Returns true if the parts do not have the weights of a choice.
pub(crate) fn weigh_wrong(all: &[(Expr, Expr)]) -> bool
    ensures { result ≡ weigh_wrong (weights (choices all.now)) }
{
    any_unusable(all) || all.len() > MAX_CHOICES || !any_over_zero(all) && sums_wrong(all)
}
