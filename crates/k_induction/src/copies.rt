//! The copies of a loop's body, built from the last one outward.

ghost use Rattle.heylo_formula.specs.PlainTrees.{cond_of, form_of};
ghost use Rattle.heyvl_acts.specs.PlainActs.{act_of, acts_of};
ghost use Rattle.k_induction.specs.Copies.{another_copy, copies, last_copy, no_more};
ghost use Rattle.std.specs.Prelude.{IfOk, ◌≡◌, ◌≤◌};

use crate::bounds::{if_holds, may, meets, must, stated};
use heylo_formula::{Cond, Form};
use heyvl_acts::Act;
use heyvl_places::Span;
use std::alloc::{AllocError, Global};

/// Returns `k` copies of a loop's body for the encoding of the loop, in a coproc if `up` holds,
/// otherwise in a proc. New acts have the place `span`.
pub fn unrolled(
    alloc: Global,
    guard: &Cond,
    k: u32,
    inv: &Form,
    body: &[Act],
    up: bool,
    span: Span,
) -> Result<Vec<Act>, AllocError>
    requires { 1 ≤ k }
    ensures { IfOk result (λ made. acts_of made.items
        ≡ copies up span (cond_of guard.now) (form_of inv.now) (acts_of body.now) k) }
{
    let mut made = last_copy(alloc, inv, body, up, span)?;
    for count in 1..k {
        let others = if_holds(alloc, guard, made, span)?;
        made = another_copy(alloc, inv, body, up, span, others)?;
    }
    Ok(made)
}

/// Returns the last copy, after which nothing counts.
fn last_copy(
    alloc: Global,
    inv: &Form,
    body: &[Act],
    up: bool,
    span: Span,
) -> Result<Vec<Act>, AllocError>
    ensures { IfOk result (λ made. acts_of made.items
        ≡ last_copy up span (form_of inv.now) (acts_of body.now)) }
{
    let mut made = Act::copy_all(alloc, body)?;
    made.push(stated(alloc, must(up), inv, span)?)?;
    made.push(no_more(alloc, up, span)?)?;
    Ok(made)
}

/// Returns a copy followed by `others`, which is under the guard of the loop.
fn another_copy(
    alloc: Global,
    inv: &Form,
    body: &[Act],
    up: bool,
    span: Span,
    others: Act,
) -> Result<Vec<Act>, AllocError>
    ensures { IfOk result (λ made. acts_of made.items
        ≡ another_copy up span (form_of inv.now) (acts_of body.now) (act_of others)) }
{
    let mut made = Act::copy_all(alloc, body)?;
    made.push(stated(alloc, meets(up), inv, span)?)?;
    made.push(others)?;
    Ok(made)
}

/// Returns the check after which nothing counts.
fn no_more(alloc: Global, up: bool, span: Span) -> Result<Act, AllocError>
    ensures { IfOk result (λ made. act_of made ≡ no_more up span) }
{
    let end = Form::Embed(Box::new(alloc, Cond::Const(up))?);
    Ok(Act::Check(may(up), end, span))
}
