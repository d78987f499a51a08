//! The encoding of a loop whose body is already encoded.

ghost use Rattle.heyvl_acts.specs.Acts.{Acts as plain_acts, join, types_of};
ghost use Rattle.heyvl_acts.specs.ModifiedVariables.{modified};
ghost use Rattle.heyvl_acts.specs.PlainActs.{acts_of, procedure_of};
ghost use Rattle.heyvl_acts.specs.Rules.{GrowBelow};
ghost use Rattle.heyvl_acts.proofs.exported.PlainActsAre.{head_of};
ghost use Rattle.loop_encodings.specs.Encoding.{encoded_loop, havocs, tested};
ghost use Rattle.std.specs.Prelude.{OnOk, length, ◌≡◌, ◌≤◌};

use heyvl_acts::{Act, LoopAct, TProc};
use heyvl_places::Span;
use k_induction::{if_holds, may, must, stated, unrolled};
use proc_contracts::modified;
use std::alloc::{AllocError, Global};

/// Appends the encoding of the loop.
pub(crate) fn add_loop(
    alloc: Global,
    procedure: &TProc,
    one: &LoopAct,
    body: &[Act],
    made: &mut Vec<Act>,
) -> Result<(), AllocError>
    requires some { 1 ≤ one.now.k }
    requires scope { GrowBelow 0 (length procedure.now.vars.items) one.now.scope.items }
    ensures { OnOk result (acts_of made.new.items
        ≡ join (acts_of made.old.items)
        (encoded_loop procedure.now.co (types_of (procedure_of procedure.now)) (head_of one.now)
        (modified one.now.scope.items (acts_of one.now.body.items)) (acts_of body.now))) }
{
    made.push(stated(alloc, must(procedure.co), &one.inv, one.span)?)?;
    let found = modified(alloc, one)?;
    add_havocs(procedure, one.span, &found, made)?;
    add_test(alloc, procedure.co, one, body, made)?;
    Ok(())
}

/// Appends acts by which the variables take any values of their types.
fn add_havocs(
    procedure: &TProc,
    span: Span,
    found: &[u32],
    made: &mut Vec<Act>,
) -> Result<(), AllocError>
    requires { GrowBelow 0 (length procedure.now.vars.items) found.now }
    ensures { OnOk result ((rest : plain_acts)
        → join (acts_of made.new.items) rest
        ≡ join (acts_of made.old.items)
        (havocs procedure.now.co span (types_of (procedure_of procedure.now)) found.now rest)) }
{
    for x in found {
        let ty = procedure.vars[*x as usize].ty;
        made.push(Act::Any(*x, procedure.co, ty, span))?;
    }
    Ok(())
}

/// Appends the assumption of the invariant, and the copies of the body for the case that the guard
/// holds.
fn add_test(
    alloc: Global,
    up: bool,
    one: &LoopAct,
    body: &[Act],
    made: &mut Vec<Act>,
) -> Result<(), AllocError>
    requires { 1 ≤ one.now.k }
    ensures { OnOk result (acts_of made.new.items
        ≡ join (acts_of made.old.items) (tested up (head_of one.now) (acts_of body.now))) }
{
    made.push(Act::Validate(up, one.span))?;
    made.push(stated(alloc, may(up), &one.inv, one.span)?)?;
    let copies = unrolled(alloc, &one.guard, one.k, &one.inv, body, up, one.span)?;
    made.push(if_holds(alloc, &one.guard, copies, one.span)?)?;
    Ok(())
}
