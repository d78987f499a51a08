//! Pre and post clauses.

ghost use Rattle.heylo_formula.specs.PlainTrees.{form_of};
ghost use Rattle.heyvl_syntax.specs.Expressions.{expression, expressions};
ghost use Rattle.typed_expressions.specs.Answers.{Gives};
ghost use Rattle.typed_expressions.specs.Views.{meaning_of};
ghost use Rattle.static_rules.specs.Files.{clause, front_of, joined_with, post_forms};
ghost use Rattle.static_rules.specs.Files.{posts_findings, pre_forms, pres_findings};
ghost use Rattle.typed_expressions.specs.Values.{form};
ghost use Rattle.typed_heads.specs.internal.Clauses.{joined_behind};
ghost use Rattle.typed_expressions.specs.TypedExpressions.{closed_findings, elaborate, findings};
ghost use Rattle.typed_expressions.specs.DeclaredVariables.{front_variables, fronts_variables};
ghost use Rattle.std.specs.Prelude.{◌+◌, ◌<◌, ◌^◌, ◌≡◌, ◌∷◌, [], IfOk, OnOk, length, map};
ghost use Rattle.std.specs.Prelude.{option_map};

use crate::fronts::behind_front;
use heylo_formula::Form;
use heyvl_syntax::Expr;
use std::alloc::{AllocError, Global};
use typed_expressions::{
    Demand, Front, Meaning, ResolveStop, Scope, endless, nothing, read, read_front,
};

/// Returns the formula of an elaborated expression; infinity if it is not a number, which is an
/// error.
fn form(meaning: Meaning) -> Form
    ensures { form_of result ≡ form (Some (meaning_of meaning)) }
{
    match meaning {
        Meaning::Truth(_) => endless(),
        Meaning::Number(_, form) => form,
        Meaning::Real => endless(),
    }
}

/// Returns the quantifiers that may lead a post clause.
fn front_of(co: bool) -> Front
    ensures { result ≡ front_of co }
{
    if co { Front::Sup } else { Front::Inf }
}

/// Returns the bound without a clause: 0 in a coproc, infinity in a proc.
fn no_clause(co: bool) -> Form
    ensures { form_of result ≡ clause co [] }
{
    if co { nothing() } else { endless() }
}

/// Returns two clauses joined: the maximum in a coproc, the minimum in a proc.
fn join(alloc: Global, co: bool, left: Form, right: Form) -> Result<Form, AllocError>
    ensures { IfOk result (λ made. form_of made
        ≡ joined_with co (form_of left) (form_of right ∷ [])) }
{
    let left = Box::new(alloc, left)?;
    let right = Box::new(alloc, right)?;
    Ok(if co {
        Form::Max(left, right)
    } else {
        Form::Min(left, right)
    })
}

/// Returns the clauses joined so far, if there are any, joined with one more.
fn with_clause(alloc: Global, co: bool, joined: Option<Form>, one: Form) -> Result<Form, AllocError>
    ensures { IfOk result (λ made. form_of made
        ≡ joined_behind co (option_map form_of joined) (form_of one ∷ [])) }
{
    match joined {
        None => Ok(one),
        Some(before) => join(alloc, co, before, one),
    }
}

/// Returns all clauses joined from left to right. The depth of the result grows with their number.
pub fn clause(alloc: Global, co: bool, all: Vec<Form>) -> Result<Form, AllocError>
    ensures { IfOk result (λ made. form_of made ≡ clause co (map form_of all.items)) }
{
    let mut joined = None;
    for one in all {
        joined = Some(with_clause(alloc, co, joined, one)?);
    }
    match joined {
        None => Ok(no_clause(co)),
        Some(form) => Ok(form),
    }
}

/// Returns the formula of a pre clause, or the first error in it.
fn read_pre(alloc: Global, scope: &Scope, next: u32, e: &Expr) -> Result<Form, ResolveStop>
    ensures { Gives form_of result
        (closed_findings Demand.Formula next scope.now (expression e.now))
        (form (elaborate next scope.now (expression e.now))) }
{
    Ok(form(read(alloc, scope, next, e, Demand::Formula)?))
}

/// Returns the formula of a post clause, or the first error in it.
fn read_post(
    alloc: Global,
    scope: &mut Scope,
    next: u32,
    co: bool,
    e: &Expr,
) -> Result<Form, ResolveStop>
    requires { next + length (front_variables (expression e.now)) < 2 ^ 32 }
    ensures gives { Gives form_of result
        (findings (front_of co) Demand.Formula next scope.old (expression e.now))
        (form (elaborate next scope.old (expression e.now))) }
    ensures kept { OnOk result (scope.new ≡ scope.old) }
{
    let meaning = read_front(alloc, scope, next, e, front_of(co), Demand::Formula)?;
    Ok(form(meaning))
}

/// Returns the formulas of the pre clauses.
///
/// # Errors
///
/// `Fault` with the first static error in the clauses, or `Memory`.
pub fn read_pres(
    alloc: Global,
    scope: &Scope,
    next: u32,
    all: &[Expr],
) -> Result<Vec<Form>, ResolveStop>
    ensures { Gives (λ forms. map form_of forms.items) result
        (pres_findings next scope.now (expressions all.now))
        (pre_forms next scope.now (expressions all.now)) }
{
    let mut forms = Vec::with_capacity(alloc, all.len())?;
    for e in all {
        forms.push(read_pre(alloc, scope, next, e)?)?;
    }
    Ok(forms)
}

/// Returns the formulas of the post clauses. The first quantified variable has the number `first`.
///
/// # Errors
///
/// `Fault` with the first static error in the clauses, or `Memory`.
pub fn read_posts(
    alloc: Global,
    scope: &mut Scope,
    first: u32,
    co: bool,
    all: &[Expr],
) -> Result<Vec<Form>, ResolveStop>
    requires { first + length (fronts_variables (expressions all.now)) < 2 ^ 32 }
    ensures gives { Gives (λ forms. map form_of forms.items) result
        (posts_findings (front_of co) first scope.old (expressions all.now))
        (post_forms first scope.old (expressions all.now)) }
    ensures kept { OnOk result (scope.new ≡ scope.old) }
{
    let mut forms = Vec::with_capacity(alloc, all.len())?;
    let mut next = first;
    for e in all {
        forms.push(read_post(alloc, scope, next, co, e)?)?;
        next = behind_front(next, e);
    }
    Ok(forms)
}
