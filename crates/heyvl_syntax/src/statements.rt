//! Statements.

ghost use Rattle.heyvl_syntax.specs.Statements.{arms, block, choices, guarded, loop_rule};
ghost use Rattle.heyvl_syntax.specs.Statements.{loop_rules, optional_right, right_side, statement};
ghost use Rattle.std.specs.Prelude.{◌≡◌, IfOk};

use crate::copies::beside;
use crate::{Expr, TypeName};
use heyvl_places::{CheckKind, Name, Span};
use std::alloc::{AllocError, Global};

/// An annotation of a loop.
pub enum Rule {
    /// `@invariant(i)`
    Invariant(Expr, Span),
    /// `@k_induction(k, i)`
    KInduction(Expr, Expr, Span),
    /// `@ranking(step, r)`
    Ranking(Expr, Expr, Span),
}

impl Drop for Rule {
    fn drop(self) {
        match self {
            Rule::Invariant(_, _) => {}
            Rule::KInduction(_, _, _) => {}
            Rule::Ranking(_, _, _) => {}
        }
    }
}

/// The right side of an assignment or a declaration.
pub enum Right {
    /// The value of an expression.
    Plain(Expr),
    /// `flip(p)`: true with probability `p`, otherwise false.
    Flip(Expr),
    /// `unif(a, b)`: each integer from `a` to `b` with the same probability.
    Unif(Expr, Expr),
    /// `choose { p: a, .. }`: the value of `a` with probability `p`.
    Choose(Vec<(Expr, Expr)>),
    /// A call of a procedure with its arguments.
    Call(Name, Vec<Expr>),
}

impl Drop for Right {
    fn drop(self) {
        match self {
            Right::Plain(_) => {}
            Right::Flip(_) => {}
            Right::Unif(_, _) => {}
            Right::Choose(_) => {}
            Right::Call(_, _) => {}
        }
    }
}

/// An arm of an `if`: its guard, and the statements that run if the guard is the first one that
/// holds.
#[cycle(statements)]
#[derive(Drop)]
pub struct Arm {
    pub guard: Expr,
    pub body: Vec<Stmt>,
}

/// A statement. Its place extends from its first byte to the end of its last token. A loop begins
/// at its first annotation.
#[cycle(statements)]
pub enum Stmt {
    /// `var x: T` or `var x: T = r`.
    Var(Name, TypeName, Option<Right>, Span),
    /// `x, .. = r`, or a call without targets.
    Assign(Vec<Name>, Right, Span),
    /// `assert a`, `assume a`, `coassert a` or `coassume a`.
    Check(CheckKind, Expr, Span),
    /// `covalidate` if the flag is true, otherwise `validate`.
    Validate(bool, Span),
    /// `cohavoc x, ..` if the flag is true, otherwise `havoc x, ..`.
    Havoc(bool, Vec<Name>, Span),
    /// `reward a` or `tick a`.
    Reward(Expr, Span),
    /// `if a { .. } else if b { .. } else { .. }`. A missing `else` is the empty block.
    If(Vec<Arm>, Vec<Stmt>, Span),
    /// `if \cup { .. } else { .. }` if the flag is true, otherwise `if \cap { .. } else { .. }`.
    Pick(bool, Vec<Stmt>, Vec<Stmt>, Span),
    /// A loop: its annotations, its guard and its body.
    While(Vec<Rule>, Expr, Vec<Stmt>, Span),
}

impl Drop for Stmt {
    #[cycle(statements_drop)]
    fn drop(self) {
        match self {
            Stmt::Var(_, _, _, _) => {}
            Stmt::Assign(_, _, _) => {}
            Stmt::Check(_, _, _) => {}
            Stmt::Validate(_, _) => {}
            Stmt::Havoc(_, _, _) => {}
            Stmt::Reward(_, _) => {}
            Stmt::If(_, _, _) => {}
            Stmt::Pick(_, _, _, _) => {}
            Stmt::While(_, _, _, _) => {}
        }
    }
}

impl Rule {
    /// Returns a copy of the annotation.
    pub fn copy(&self, alloc: Global) -> Result<Rule, AllocError>
        ensures { IfOk result (λ copied. loop_rule copied ≡ loop_rule self.now) }
    {
        match self {
            Rule::Invariant(invariant, span) => Ok(Rule::Invariant(invariant.copy(alloc)?, *span)),
            Rule::KInduction(k, invariant, span) => {
                let (k, invariant) = beside(k.copy(alloc), invariant.copy(alloc))?;
                Ok(Rule::KInduction(k, invariant, *span))
            }
            Rule::Ranking(step, ranking, span) => {
                let (step, ranking) = beside(step.copy(alloc), ranking.copy(alloc))?;
                Ok(Rule::Ranking(step, ranking, *span))
            }
        }
    }
}

/// Returns copies of the annotations, in their order.
fn copy_rules(alloc: Global, rules: &[Rule]) -> Result<Vec<Rule>, AllocError>
    ensures { IfOk result (λ copied. loop_rules copied.items ≡ loop_rules rules.now) }
{
    let mut copied = Vec::with_capacity(alloc, rules.len())?;
    for rule in rules {
        copied.push(rule.copy(alloc)?)?;
    }
    Ok(copied)
}

impl Right {
    /// Returns a copy of the right side.
    pub fn copy(&self, alloc: Global) -> Result<Right, AllocError>
        ensures { IfOk result (λ copied. right_side copied ≡ right_side self.now) }
    {
        match self {
            Right::Plain(value) => Ok(Right::Plain(value.copy(alloc)?)),
            Right::Flip(probability) => Ok(Right::Flip(probability.copy(alloc)?)),
            Right::Unif(low, high) => {
                let (low, high) = beside(low.copy(alloc), high.copy(alloc))?;
                Ok(Right::Unif(low, high))
            }
            Right::Choose(parts) => Ok(Right::Choose(copy_parts(alloc, parts)?)),
            Right::Call(name, arguments) => {
                let name = name.copy(alloc)?;
                Ok(Right::Call(name, Expr::copy_all(alloc, arguments)?))
            }
        }
    }
}

/// Returns copies of the alternatives of a `choose`, in their order.
fn copy_parts(alloc: Global, parts: &[(Expr, Expr)]) -> Result<Vec<(Expr, Expr)>, AllocError>
    ensures { IfOk result (λ copied. choices copied.items ≡ choices parts.now) }
{
    let mut copied = Vec::with_capacity(alloc, parts.len())?;
    for (weight, value) in parts {
        copied.push(beside(weight.copy(alloc), value.copy(alloc))?)?;
    }
    Ok(copied)
}

impl Arm {
    /// Returns a copy of the arm.
    #[cycle(copying)]
    pub fn copy(&self, alloc: Global) -> Result<Arm, AllocError>
        ensures { IfOk result (λ copied. guarded copied ≡ guarded self.now) }
    {
        let body = Stmt::copy_all(alloc, &self.body)?;
        Ok(Arm {
            guard: self.guard.copy(alloc)?,
            body,
        })
    }

    /// Returns copies of the arms, in their order.
    #[cycle(copying)]
    pub fn copy_all(alloc: Global, all: &[Arm]) -> Result<Vec<Arm>, AllocError>
        ensures { IfOk result (λ copied. arms copied.items ≡ arms all.now) }
    {
        let mut copied = Vec::with_capacity(alloc, all.len())?;
        for one in all {
            copied.push(one.copy(alloc)?)?;
        }
        Ok(copied)
    }
}

impl Stmt {
    /// Returns a copy of the statement.
    #[cycle(copying)]
    pub fn copy(&self, alloc: Global) -> Result<Stmt, AllocError>
        ensures { IfOk result (λ copied. statement copied ≡ statement self.now) }
    {
        match self {
            Stmt::Var(name, ty, given, span) => {
                let name = name.copy(alloc)?;
                Ok(Stmt::Var(name, *ty, copy_given(alloc, given)?, *span))
            }
            Stmt::Assign(targets, right, span) => {
                let targets = Name::copy_all(alloc, targets)?;
                Ok(Stmt::Assign(targets, right.copy(alloc)?, *span))
            }
            Stmt::Check(kind, claim, span) => Ok(Stmt::Check(*kind, claim.copy(alloc)?, *span)),
            Stmt::Validate(co, span) => Ok(Stmt::Validate(*co, *span)),
            Stmt::Havoc(co, names, span) => Ok(Stmt::Havoc(
                *co,
                Name::copy_all(alloc, names)?,
                *span,
            )),
            Stmt::Reward(amount, span) => Ok(Stmt::Reward(amount.copy(alloc)?, *span)),
            Stmt::If(arms, other, span) => {
                let arms = Arm::copy_all(alloc, arms)?;
                Ok(Stmt::If(arms, Stmt::copy_all(alloc, other)?, *span))
            }
            Stmt::Pick(up, left, right, span) => {
                let left = Stmt::copy_all(alloc, left)?;
                Ok(Stmt::Pick(*up, left, Stmt::copy_all(alloc, right)?, *span))
            }
            Stmt::While(rules, guard, body, span) => {
                let rules = copy_rules(alloc, rules)?;
                let body = Stmt::copy_all(alloc, body)?;
                Ok(Stmt::While(rules, guard.copy(alloc)?, body, *span))
            }
        }
    }

    /// Returns copies of the statements, in their order.
    #[cycle(copying)]
    pub fn copy_all(alloc: Global, all: &[Stmt]) -> Result<Vec<Stmt>, AllocError>
        ensures { IfOk result (λ copied. block copied.items ≡ block all.now) }
    {
        let mut copied = Vec::with_capacity(alloc, all.len())?;
        for one in all {
            copied.push(one.copy(alloc)?)?;
        }
        Ok(copied)
    }
}

/// Returns a copy of the right side of a declaration, if there is one.
fn copy_given(alloc: Global, given: &Option<Right>) -> Result<Option<Right>, AllocError>
    ensures { IfOk result (λ copied. optional_right copied ≡ optional_right given.now) }
{
    match given {
        None => Ok(None),
        Some(right) => Ok(Some(right.copy(alloc)?)),
    }
}
