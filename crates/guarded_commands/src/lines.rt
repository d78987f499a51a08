//! The statements of single commands, from those of their blocks.

ghost use Rattle.heyvl_syntax.specs.Expressions.{Expression, expression};
ghost use Rattle.heyvl_syntax.specs.Statements.{Block, LoopRule, RightSide, Statement, block};
ghost use Rattle.heyvl_syntax.specs.Statements.{loop_rules, statement};
ghost use Rattle.guarded_commands.specs.Translation.{arm, pick_name};
ghost use Rattle.std.specs.Prelude.{IfOk, [], true, ◌∷◌, ◌≡◌};

use heyvl_places::{Name, Span};
use heyvl_syntax::{Arm, Expr, Right, Rule, Stmt, TypeName};
use itoa::Buffer;
use std::alloc::{AllocError, Global};

/// Returns the variable of the probabilistic choice with this number.
fn pick_name(alloc: Global, number: u32) -> Result<Name, AllocError>
    ensures { IfOk result (λ made. made ≡ pick_name number) }
{
    let mut buffer = Buffer::new();
    let mut bytes = Vec::new(alloc);
    bytes.extend_from_slice(b"pick_")?;
    bytes.extend_from_slice(buffer.format(number).as_bytes())?;
    Name::new(alloc, &bytes)
}

/// Returns the variable of the probabilistic choice with this number as a guard.
pub(crate) fn picked(alloc: Global, number: u32, span: Span) -> Result<Expr, AllocError>
    ensures { IfOk result (λ made. expression made ≡ Expression.name (pick_name number) span) }
{
    Ok(Expr::Name(pick_name(alloc, number)?, span))
}

/// Returns `(b)`, the guard of an `if` or a `while`, at `span`.
pub(crate) fn enclosed(alloc: Global, guard: &Expr, span: Span) -> Result<Expr, AllocError>
    ensures { IfOk result (λ made. expression made ≡ Expression.group (expression guard.now) span) }
{
    Ok(Expr::Group(guard.copy(alloc)?.boxed(alloc)?, span))
}

/// Returns `if b { .. } else { .. }`.
pub(crate) fn branch(
    alloc: Global,
    guard: Expr,
    left: Vec<Stmt>,
    right: Vec<Stmt>,
    span: Span,
) -> Result<Stmt, AllocError>
    ensures { IfOk result (λ made. statement made
        ≡ Statement.branch (arm (expression guard) (block left.items)) (block right.items) span) }
{
    let arms = vec![in alloc; Arm { guard, body: left }]?;
    Ok(Stmt::If(arms, right, span))
}

/// Returns `if true { } else { }`.
pub(crate) fn nothing(alloc: Global, span: Span) -> Result<Stmt, AllocError>
    ensures { IfOk result (λ made. statement made
        ≡ Statement.branch (arm (Expression.truth true span) Block.done) Block.done span) }
{
    branch(
        alloc,
        Expr::Truth(true, span),
        Vec::new(alloc),
        Vec::new(alloc),
        span,
    )
}

/// Returns `x = e`.
pub(crate) fn assignment(
    alloc: Global,
    name: &Name,
    value: &Expr,
    span: Span,
) -> Result<Stmt, AllocError>
    ensures { IfOk result (λ made. statement made
        ≡ Statement.assign (name.now ∷ []) (RightSide.plain (expression value.now)) span) }
{
    let targets = vec![in alloc; name.copy(alloc)?]?;
    Ok(Stmt::Assign(targets, Right::Plain(value.copy(alloc)?), span))
}

/// Returns `reward e`.
pub(crate) fn reward(alloc: Global, amount: &Expr, span: Span) -> Result<Stmt, AllocError>
    ensures { IfOk result (λ made. statement made ≡ Statement.reward (expression amount.now) span) }
{
    Ok(Stmt::Reward(amount.copy(alloc)?, span))
}

/// Returns `var pick_j: Bool = flip(p)`.
pub(crate) fn toss(
    alloc: Global,
    number: u32,
    probability: &Expr,
    span: Span,
) -> Result<Stmt, AllocError>
    ensures { IfOk result (λ made. statement made
        ≡ Statement.var (pick_name number) TypeName.Bool
        (Some (RightSide.flip (expression probability.now))) span) }
{
    let name = pick_name(alloc, number)?;
    let tossed = Right::Flip(probability.copy(alloc)?);
    Ok(Stmt::Var(name, TypeName::Bool, Some(tossed), span))
}

/// Returns the list of `@invariant(i)` alone.
fn invariant(alloc: Global, bound: &Expr, span: Span) -> Result<Vec<Rule>, AllocError>
    ensures { IfOk result (λ made. loop_rules made.items
        ≡ LoopRule.invariant (expression bound.now) span ∷ []) }
{
    Ok(vec![in alloc; Rule::Invariant(bound.copy(alloc)?, span)]?)
}

/// Returns `@invariant(i) while (b) { .. }`.
pub(crate) fn repetition(
    alloc: Global,
    guard: &Expr,
    bound: &Expr,
    body: Vec<Stmt>,
    span: Span,
) -> Result<Stmt, AllocError>
    ensures { IfOk result (λ made. statement made
        ≡ Statement.loop (LoopRule.invariant (expression bound.now) span ∷ [])
        (Expression.group (expression guard.now) span) (block body.items) span) }
{
    let rules = invariant(alloc, bound, span)?;
    let guard = enclosed(alloc, guard, span)?;
    Ok(Stmt::While(rules, guard, body, span))
}
