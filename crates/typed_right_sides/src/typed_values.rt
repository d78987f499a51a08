//! Values that are assigned to variables, and their types.

ghost use Rattle.heylo_formula.specs.PlainTrees.{term_of};
ghost use Rattle.heyvl_syntax.specs.Expressions.{expression, expressions};
ghost use Rattle.typed_expressions.specs.Answers.{Gives};
ghost use Rattle.typed_right_sides.specs.Views.{value_type};
ghost use Rattle.typed_expressions.specs.Views.{meaning_of};
ghost use Rattle.static_rules.specs.RightSides.{all_findings, type_of_expression};
ghost use Rattle.typed_expressions.specs.Values.{term, terms};
ghost use Rattle.typed_expressions.specs.TypedExpressions.{closed_findings, elaborate};
ghost use Rattle.typed_right_sides.specs.internal.RightSideParts.{join_all, join_more, types_of};
ghost use Rattle.typed_right_sides.specs.internal.RightSideParts.{value_of, values_of};
ghost use Rattle.std.specs.Prelude.{◌≡◌, ◌∷◌, [], Some, map, option_map};

use crate::value_types::{ValueType, join_types, type_of_meaning};
use heylo_formula::{Form, Term};
use heyvl_num::Ext;
use heyvl_syntax::Expr;
use std::alloc::Global;
use typed_expressions::{Demand, Meaning, ResolveStop, Scope, read};

/// A value, and its type if a variable may have it.
#[derive(Drop)]
pub(crate) struct Value {
    pub(crate) term: Term,
    pub(crate) ty: Option<ValueType>,
}

/// Values in their order, and their types.
#[derive(Drop)]
pub(crate) struct Values {
    pub(crate) terms: Vec<Term>,
    pub(crate) types: Vec<Option<ValueType>>,
}

/// Returns the term of an elaborated expression.
fn term(made: Meaning) -> Term
    ensures { term_of result ≡ term (Some (meaning_of made)) }
{
    match made {
        Meaning::Truth(test) => Term::Truth(test),
        Meaning::Number(_, form) => Term::Num(form),
        Meaning::Real => Term::Num(Form::Const(Ext::Inf)),
    }
}

/// Returns the value of an expression, or the first error in it.
pub(crate) fn read_value(
    alloc: Global,
    scope: &Scope,
    next: u32,
    e: &Expr,
) -> Result<Value, ResolveStop>
    ensures { Gives value_of result (closed_findings Demand.Any next scope.now (expression e.now)) (
      term (elaborate next scope.now (expression e.now)),
      type_of_expression next scope.now (expression e.now),
    ) }
{
    let made = read(alloc, scope, next, e, Demand::Any)?;
    let ty = type_of_meaning(&made);
    Ok(Value {
        term: term(made),
        ty,
    })
}

/// Returns the values of expressions, or the first error in them.
pub(crate) fn read_values(
    alloc: Global,
    scope: &Scope,
    next: u32,
    all: &[Expr],
) -> Result<Values, ResolveStop>
    ensures { Gives values_of result (all_findings next scope.now (expressions all.now)) (
      terms next scope.now (expressions all.now),
      types_of next scope.now (expressions all.now),
    ) }
{
    let mut terms = Vec::with_capacity(alloc, all.len())?;
    let mut types = Vec::with_capacity(alloc, all.len())?;
    for e in all {
        let Value { term, ty } = read_value(alloc, scope, next, e)?;
        terms.push(term)?;
        types.push(ty)?;
    }
    Ok(Values { terms, types })
}

/// Returns the common type of two types, if there is one.
fn join_both(a: Option<ValueType>, b: Option<ValueType>) -> Option<ValueType>
    ensures { option_map value_type result
        ≡ join_more (option_map value_type a) (option_map value_type b ∷ []) }
{
    join_types(a?, b?)
}

/// Returns the common type of all types, if there is one.
pub(crate) fn join_all(types: &[Option<ValueType>]) -> Option<ValueType>
    ensures { option_map value_type result ≡ join_all (map (option_map value_type) types.now) }
{
    let (first, others) = types.split_first()?;
    let mut joined = *first;
    for other in others {
        joined = join_both(joined, *other);
    }
    joined
}
