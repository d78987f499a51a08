//! Copies of acts.

ghost use Rattle.heyvl_acts.specs.PlainActs.{act_of, acts_of, loop_of, parts_of, terms_of, rank_of};
ghost use Rattle.std.specs.Prelude.{◌≡◌, IfOk};

use crate::acts::{Act, LoopAct};
use heylo_formula::{Form, Term};
use heyvl_num::Frac;
use std::alloc::{AllocError, Global};

impl Act {
    /// Returns a copy of the act.
    #[cycle(copying)]
    pub fn copy(&self, alloc: Global) -> Result<Act, AllocError>
        ensures { IfOk result (λ copied. act_of copied ≡ act_of self.now) }
    {
        match self {
            Act::Set(x, term, span) => Ok(Act::Set(*x, term.copy(alloc)?, *span)),
            Act::Draw(x, parts, span) => Ok(Act::Draw(*x, copy_parts(alloc, parts)?, *span)),
            Act::Toss(x, form, span) => Ok(Act::Toss(*x, form.copy(alloc)?, *span)),
            Act::Any(x, up, ty, span) => Ok(Act::Any(*x, *up, *ty, *span)),
            Act::Reward(form, span) => Ok(Act::Reward(form.copy(alloc)?, *span)),
            Act::If(arms, other, span) => {
                let mut copied = Vec::with_capacity(alloc, arms.len())?;
                for arm in arms {
                    let guard = arm.0.copy(alloc)?;
                    copied.push((guard, Act::copy_all(alloc, &arm.1)?))?;
                }
                Ok(Act::If(copied, Act::copy_all(alloc, other)?, *span))
            }
            Act::Pick(up, left, right, span) => {
                let left = Act::copy_all(alloc, left)?;
                Ok(Act::Pick(*up, left, Act::copy_all(alloc, right)?, *span))
            }
            Act::Check(kind, form, span) => Ok(Act::Check(*kind, form.copy(alloc)?, *span)),
            Act::Validate(co, span) => Ok(Act::Validate(*co, *span)),
            Act::Loop(one) => Ok(Act::Loop(Box::new(alloc, one.copy(alloc)?)?)),
            Act::Call(targets, procedure, arguments, span) => {
                let targets = copy_numbers(alloc, targets)?;
                let arguments = copy_terms(alloc, arguments)?;
                Ok(Act::Call(targets, *procedure, arguments, *span))
            }
        }
    }

    /// Returns copies of the acts, in their order.
    #[cycle(copying)]
    pub fn copy_all(alloc: Global, all: &[Act]) -> Result<Vec<Act>, AllocError>
        ensures { IfOk result (λ copied. acts_of copied.items ≡ acts_of all.now) }
    {
        let mut copied = Vec::with_capacity(alloc, all.len())?;
        for one in all {
            copied.push(one.copy(alloc)?)?;
        }
        Ok(copied)
    }
}

impl LoopAct {
    /// Returns a copy of the loop.
    #[cycle(copying)]
    pub fn copy(&self, alloc: Global) -> Result<LoopAct, AllocError>
        ensures { IfOk result (λ copied. loop_of copied ≡ loop_of self.now) }
    {
        Ok(LoopAct {
            number: self.number,
            k: self.k,
            inv: self.inv.copy(alloc)?,
            guard: self.guard.copy(alloc)?,
            body: Act::copy_all(alloc, &self.body)?,
            rank: copy_rank(alloc, &self.rank)?,
            scope: copy_numbers(alloc, &self.scope)?,
            span: self.span,
        })
    }
}

/// Returns copies of the alternatives of a draw, in their order.
fn copy_parts(alloc: Global, all: &[(Frac, Term)]) -> Result<Vec<(Frac, Term)>, AllocError>
    ensures { IfOk result (λ copied. parts_of copied.items ≡ parts_of all.now) }
{
    let mut copied = Vec::with_capacity(alloc, all.len())?;
    for (weight, term) in all {
        copied.push((*weight, term.copy(alloc)?))?;
    }
    Ok(copied)
}

/// Returns copies of the terms, in their order.
fn copy_terms(alloc: Global, all: &[Term]) -> Result<Vec<Term>, AllocError>
    ensures { IfOk result (λ copied. terms_of copied.items ≡ terms_of all.now) }
{
    let mut copied = Vec::with_capacity(alloc, all.len())?;
    for one in all {
        copied.push(one.copy(alloc)?)?;
    }
    Ok(copied)
}

/// Returns a copy of a list of numbers.
fn copy_numbers(alloc: Global, all: &[u32]) -> Result<Vec<u32>, AllocError>
    ensures { IfOk result (λ copied. copied.items ≡ all.now) }
{
    Vec::from_slice(alloc, all)
}

/// Returns a copy of a ranking with its step, if there is one.
fn copy_rank(alloc: Global, rank: &Option<(Frac, Form)>) -> Result<Option<(Frac, Form)>, AllocError>
    ensures { IfOk result (λ copied. rank_of copied ≡ rank_of rank.now) }
{
    match rank {
        None => Ok(None),
        Some((step, form)) => Ok(Some((*step, form.copy(alloc)?))),
    }
}
