//! The elaboration of expressions, and the first error in them.

ghost use Rattle.heyvl_syntax.specs.Expressions.{expression, Expression};
ghost use Rattle.typed_expressions.specs.Answers.{Gives};
ghost use Rattle.typed_expressions.specs.Views.{meaning_of, read};
ghost use Rattle.typed_expressions.specs.Findings.{at};
ghost use Rattle.typed_expressions.specs.Scopes.{with_local};
ghost use Rattle.typed_expressions.specs.Table.{binary, bracket, choice, embedding, factor, meets};
ghost use Rattle.typed_expressions.specs.Table.{quantified, quotient, unary};
ghost use Rattle.typed_expressions.specs.TypedExpressions.{allows, closed_findings, divides_by};
ghost use Rattle.typed_expressions.specs.TypedExpressions.{elaborate, findings, lacks, operated};
ghost use Rattle.std.specs.Option.{is_none};
ghost use Rattle.typed_expressions.specs.DeclaredVariables.{front_variables};
ghost use Rattle.std.specs.Prelude.{◌+◌, ◌<◌, ◌^◌, ◌≡◌, ◌∷◌, [], IfOk, OnOk, length, not};
ghost use Rattle.std.specs.Prelude.{option_map, suc, true};

use crate::demands::{Demand, Front};
use crate::literals::divisor;
use crate::meanings::Meaning;
use crate::operators::{
    binary, bracket, choice, constant, embedding, infinity, literal, quantified, quotient, unary,
    unsigned, variable,
};
use crate::scopes::{Local, Scope};
use crate::stops::ResolveStop;
use heyvl_num::Frac;
use heyvl_places::{Name, Span};
use heyvl_syntax::{BinaryOp, Expr, TypeName, UnaryOp};
use std::alloc::{AllocError, Global};

/// Returns true if an elaborated expression has a type that is demanded.
pub fn meets(demand: Demand, made: &Meaning) -> bool
    ensures { result ≡ meets demand (meaning_of made.now) }
{
    match (demand, made) {
        (Demand::Any, _) => true,
        (Demand::Truth, Meaning::Truth(_)) => true,
        (Demand::Truth, Meaning::Number(_, _)) => false,
        (Demand::Truth, Meaning::Real) => false,
        (Demand::Formula, Meaning::Truth(_)) => false,
        (Demand::Formula, Meaning::Number(kind, _)) => unsigned(*kind),
        (Demand::Formula, Meaning::Real) => false,
    }
}

/// Returns the elaborated expression if it has a demanded type, otherwise error 12 at `span`.
fn judged(made: Option<Meaning>, demand: Demand, span: Span) -> Result<Meaning, ResolveStop>
    ensures { Gives read result (at span ((12, lacks demand (option_map meaning_of made)) ∷ []))
        (option_map meaning_of made) }
{
    match made {
        None => Err(ResolveStop::Fault(12, span)),
        Some(meaning) => {
            if meets(demand, &meaning) {
                Ok(meaning)
            } else {
                Err(ResolveStop::Fault(12, span))
            }
        }
    }
}

/// Elaborates a name.
fn read_name(
    scope: &Scope,
    name: &Name,
    demand: Demand,
    next: u32,
    span: Span,
) -> Result<Meaning, ResolveStop>
    ensures { Gives read result
        (closed_findings demand next scope.now (Expression.name name.now span))
        (elaborate next scope.now (Expression.name name.now span)) }
{
    match scope.find(name) {
        None => Err(ResolveStop::Fault(10, span)),
        Some(local) => judged(Some(variable(local)), demand, span),
    }
}

/// Elaborates `[..]` around `inner`.
fn read_bracket(
    alloc: Global,
    inner: Meaning,
    demand: Demand,
    span: Span,
) -> Result<Meaning, ResolveStop>
    ensures { Gives read result (at span ((12, lacks demand (bracket (meaning_of inner))) ∷ []))
        (bracket (meaning_of inner)) }
{
    judged(bracket(alloc, inner)?, demand, span)
}

/// Elaborates `?(..)` around `inner`.
fn read_embedding(
    alloc: Global,
    inner: Meaning,
    demand: Demand,
    span: Span,
) -> Result<Meaning, ResolveStop>
    ensures { Gives read result (at span ((12, lacks demand (embedding (meaning_of inner))) ∷ []))
        (embedding (meaning_of inner)) }
{
    judged(embedding(alloc, inner)?, demand, span)
}

/// Elaborates a prefix operator before `inner`.
fn read_unary(
    alloc: Global,
    op: UnaryOp,
    inner: Meaning,
    demand: Demand,
    span: Span,
) -> Result<Meaning, ResolveStop>
    ensures { Gives read result (at span ((12, lacks demand (unary op (meaning_of inner))) ∷ []))
        (unary op (meaning_of inner)) }
{
    judged(unary(alloc, op, inner)?, demand, span)
}

/// Returns the factor that replaces a division, or 0 without a divisor.
fn factor(divisor: Option<Frac>) -> Frac
    ensures { result ≡ factor divisor }
{
    match divisor {
        Some(factor) => factor,
        None => Frac::zero(),
    }
}

/// Elaborates a division of `left`.
fn read_division(
    alloc: Global,
    divisor: Option<Frac>,
    left: Meaning,
    demand: Demand,
    span: Span,
) -> Result<Meaning, ResolveStop>
    ensures { Gives read result
        (at span ((12, lacks demand (quotient (factor divisor) (meaning_of left)))
        ∷ (16, is_none divisor) ∷ [])) (quotient (factor divisor) (meaning_of left)) }
{
    let made = judged(quotient(alloc, factor(divisor), left)?, demand, span)?;
    if divisor.is_none() {
        return Err(ResolveStop::Fault(16, span));
    }
    Ok(made)
}

/// Elaborates an operator other than `/` between two operands.
fn read_binary(
    alloc: Global,
    op: BinaryOp,
    left: Meaning,
    right: Meaning,
    demand: Demand,
    span: Span,
) -> Result<Meaning, ResolveStop>
    ensures { Gives read result
        (at span ((12, lacks demand (binary op span (meaning_of left) (meaning_of right))) ∷ []))
        (binary op span (meaning_of left) (meaning_of right)) }
{
    judged(binary(alloc, op, span, left, right)?, demand, span)
}

/// Elaborates an operator between two operands; `second` is the expression of the second one.
fn read_operator(
    alloc: Global,
    op: BinaryOp,
    second: &Expr,
    left: Meaning,
    right: Meaning,
    demand: Demand,
    span: Span,
) -> Result<Meaning, ResolveStop>
    ensures { Gives read result
        (at span ((
          12,
          lacks demand
              (operated op span (expression second.now) (meaning_of left) (meaning_of right)),
        )
        ∷ (16, divides_by op (expression second.now)) ∷ []))
        (operated op span (expression second.now) (meaning_of left) (meaning_of right)) }
{
    match op {
        BinaryOp::Slash => read_division(alloc, divisor(second), left, demand, span),
        BinaryOp::Imply
        | BinaryOp::CoImply
        | BinaryOp::Cup
        | BinaryOp::Cap
        | BinaryOp::Or
        | BinaryOp::And
        | BinaryOp::Same
        | BinaryOp::Differ
        | BinaryOp::Less
        | BinaryOp::AtMost
        | BinaryOp::More
        | BinaryOp::AtLeast
        | BinaryOp::Plus
        | BinaryOp::Minus
        | BinaryOp::Star => read_binary(alloc, op, left, right, demand, span),
    }
}

/// Elaborates `ite` of three operands.
fn read_choice(
    alloc: Global,
    test: Meaning,
    left: Meaning,
    right: Meaning,
    demand: Demand,
    span: Span,
) -> Result<Meaning, ResolveStop>
    ensures { Gives read result
        (at span ((12, lacks demand (choice (meaning_of test) (meaning_of left) (meaning_of right)))
        ∷ [])) (choice (meaning_of test) (meaning_of left) (meaning_of right)) }
{
    judged(choice(alloc, test, left, right)?, demand, span)
}

/// Elaborates a quantifier over `inner`: `sup` if `up` holds, with the variable `local`. It is an
/// error unless `allowed` holds.
fn read_quantifier(
    alloc: Global,
    allowed: bool,
    up: bool,
    local: Local,
    inner: Meaning,
    demand: Demand,
    span: Span,
) -> Result<Meaning, ResolveStop>
    ensures { Gives read result
        (at span ((12, lacks demand (quantified up local.number local.ty (meaning_of inner)))
        ∷ (23, not allowed) ∷ [])) (quantified up local.number local.ty (meaning_of inner)) }
{
    let made = judged(
        quantified(alloc, up, local.number, local.ty, inner)?,
        demand,
        span,
    )?;
    if !allowed {
        return Err(ResolveStop::Fault(23, span));
    }
    Ok(made)
}

/// Returns the error of a quantifier at a place where none may occur; `twice` says that the name of
/// its variable is already visible.
fn read_closed_quantifier(
    alloc: Global,
    twice: bool,
    up: bool,
    local: Local,
    inner: Meaning,
    demand: Demand,
    span: Span,
) -> Result<Meaning, ResolveStop>
    ensures { Gives read result
        (at span ((11, twice)
        ∷ (12, lacks demand (quantified up local.number local.ty (meaning_of inner))) ∷ (23, true)
        ∷ [])) (quantified up local.number local.ty (meaning_of inner)) }
{
    if twice {
        return Err(ResolveStop::Fault(11, span));
    }
    read_quantifier(alloc, false, up, local, inner, demand, span)
}

/// Returns true if a quantifier may occur at this place; `up` holds for `sup`.
fn allows(front: Front, up: bool) -> bool
    ensures { result ≡ allows front up }
{
    match front {
        Front::Closed => false,
        Front::Sup => up,
        Front::Inf => !up,
    }
}

/// Returns the scope with one more variable.
fn inside(alloc: Global, scope: &Scope, name: &Name, local: Local) -> Result<Scope, AllocError>
    ensures { IfOk result (λ inner. inner ≡ with_local name.now local scope.now) }
{
    let mut inner = scope.copy()?;
    inner.declare(alloc, name, local)?;
    Ok(inner)
}

/// Returns `next + 1`.
pub fn after(next: u32) -> u32
    requires { next + 1 < 2 ^ 32 }
    ensures { result ≡ suc next }
{
    next + 1
}

/// Elaborates an expression that has to be without quantifiers.
///
/// `next` is the number of the next variable. Only quantifiers use it, and each of them is an error
/// here.
///
/// # Errors
///
/// `Fault` with the first static error in the expression, or `Memory`.
pub fn read(
    alloc: Global,
    scope: &Scope,
    next: u32,
    e: &Expr,
    demand: Demand,
) -> Result<Meaning, ResolveStop>
    ensures { Gives read result (closed_findings demand next scope.now (expression e.now))
        (elaborate next scope.now (expression e.now)) }
{
    match e {
        Expr::Number(number, span) => judged(literal(*number), demand, *span),
        Expr::Truth(truth, span) => judged(Some(constant(*truth)), demand, *span),
        Expr::Infinity(span) => judged(Some(infinity()), demand, *span),
        Expr::Name(name, span) => read_name(scope, name, demand, next, *span),
        Expr::Group(inner, span) => {
            let inner = read(alloc, scope, next, inner, Demand::Any)?;
            judged(Some(inner), demand, *span)
        }
        Expr::Bracket(inner, span) => {
            let inner = read(alloc, scope, next, inner, Demand::Any)?;
            read_bracket(alloc, inner, demand, *span)
        }
        Expr::Embed(inner, span) => {
            let inner = read(alloc, scope, next, inner, Demand::Any)?;
            read_embedding(alloc, inner, demand, *span)
        }
        Expr::Unary(op, inner, span) => {
            let inner = read(alloc, scope, next, inner, Demand::Any)?;
            read_unary(alloc, *op, inner, demand, *span)
        }
        Expr::Binary(op, first, second, span) => {
            let left = read(alloc, scope, next, first, Demand::Any)?;
            let right = read(alloc, scope, next, second, Demand::Any)?;
            read_operator(alloc, *op, second, left, right, demand, *span)
        }
        Expr::Choice(test, left, right, span) => {
            let test = read(alloc, scope, next, test, Demand::Any)?;
            let left = read(alloc, scope, next, left, Demand::Any)?;
            let right = read(alloc, scope, next, right, Demand::Any)?;
            read_choice(alloc, test, left, right, demand, *span)
        }
        Expr::Bound(up, name, ty, inner, span) => {
            let local = Local {
                number: next,
                ty: *ty,
            };
            let within = inside(alloc, scope, name, local)?;
            let inner = read(alloc, &within, next, inner, Demand::Any)?;
            read_closed_quantifier(alloc, scope.sees(name), *up, local, inner, demand, *span)
        }
    }
}

/// Elaborates an expression that quantifiers may lead, as `front` says. The variable of the first
/// one has the number `next`.
///
/// # Errors
///
/// `Fault` with the first static error in the expression, or `Memory`.
pub fn read_front(
    alloc: Global,
    scope: &mut Scope,
    next: u32,
    e: &Expr,
    front: Front,
    demand: Demand,
) -> Result<Meaning, ResolveStop>
    requires { next + length (front_variables (expression e.now)) < 2 ^ 32 }
    ensures gives { Gives read result (findings front demand next scope.old (expression e.now))
        (elaborate next scope.old (expression e.now)) }
    ensures kept { OnOk result (scope.new ≡ scope.old) }
{
    match e {
        Expr::Bound(up, name, ty, inner, span) => {
            let local = Local {
                number: next,
                ty: *ty,
            };
            let twice = scope.sees(name);
            let kept = scope.len();
            scope.declare(alloc, name, local)?;
            let inner = read_front(alloc, scope, after(next), inner, front, Demand::Any)?;
            if twice {
                return Err(ResolveStop::Fault(11, *span));
            }
            scope.truncate(kept);
            read_quantifier(alloc, allows(front, *up), *up, local, inner, demand, *span)
        }
        Expr::Number(_, _)
        | Expr::Truth(_, _)
        | Expr::Infinity(_)
        | Expr::Name(_, _)
        | Expr::Group(_, _)
        | Expr::Bracket(_, _)
        | Expr::Embed(_, _)
        | Expr::Unary(_, _, _)
        | Expr::Binary(_, _, _, _)
        | Expr::Choice(_, _, _, _) => read(alloc, scope, next, e, demand),
    }
}
