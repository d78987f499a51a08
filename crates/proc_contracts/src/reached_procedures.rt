//! The procedures that a procedure reaches by calls.

ghost use Rattle.heyvl_acts.specs.PlainActs.{procedures_of};
ghost use Rattle.heyvl_acts.specs.Rules.{MeetsAllRules};
ghost use Rattle.proc_contracts.specs.ReachedProcedures.{AreReached};
ghost use Rattle.proc_contracts.specs.internal.CallWalk.{AreCalled, ReachIsMarked};
ghost use Rattle.proc_contracts.specs.internal.MarkedNumbers.{AreMarked, Grew, marked};
ghost use Rattle.std.specs.List.{All};
ghost use Rattle.std.specs.Prelude.{IfOk, OnOk, length, ◌<◌, ◌≡◌, ◌^◌, ◌≤◌};

use crate::calls::calls_of;
use heyvl_acts::Typed;
use std::alloc::{AllocError, Global};

/// Returns the numbers of the procedures that `p` calls in one or more steps, in ascending order;
/// `p` is among them only if it reaches itself. Each body is visited once.
pub fn reach(alloc: Global, typed: &Typed, p: u32) -> Result<Vec<u32>, AllocError>
    requires there { p < length typed.now.procs.items }
    requires rules { MeetsAllRules typed.now }
    ensures { IfOk result (λ found. AreReached (procedures_of typed.now) p found.items) }
{
    let marks = reached(alloc, typed, p)?;
    numbers_of(alloc, &marks)
}

/// Returns the procedures that `p` reaches as marks.
fn reached(alloc: Global, typed: &Typed, p: u32) -> Result<Vec<bool>, AllocError>
    requires there { p < length typed.now.procs.items }
    requires rules { MeetsAllRules typed.now }
    ensures { IfOk result (λ marks. ReachIsMarked (procedures_of typed.now) p marks.items) }
{
    let mut marks = vec![in alloc; false; typed.procs.len()]?;
    let mut order = Vec::new(alloc);
    let first = called_by(alloc, typed, p)?;
    add_new(&mut marks, &mut order, &first)?;
    let mut next = 0;
    'calls: while next < order.len() {
        let q = order[next];
        if q != p {
            let called = called_by(alloc, typed, q)?;
            add_new(&mut marks, &mut order, &called)?;
        }
        next += 1;
    }
    Ok(marks)
}

/// Returns the procedures that the body of `p` calls.
fn called_by(alloc: Global, typed: &Typed, p: u32) -> Result<Vec<u32>, AllocError>
    requires there { p < length typed.now.procs.items }
    requires rules { MeetsAllRules typed.now }
    ensures { IfOk result (λ called. AreCalled (procedures_of typed.now) p called.items) }
{
    calls_of(alloc, &typed.procs[p as usize])
}

/// Marks the numbers of `all` that are not marked yet, and appends them to `order`.
fn add_new(marks: &mut Vec<bool>, order: &mut Vec<u32>, all: &[u32]) -> Result<(), AllocError>
    requires marked { AreMarked marks.old.items order.old.items }
    requires below { All (λ q. q < length marks.old.items) all.now }
    ensures marked { OnOk result (AreMarked marks.new.items order.new.items) }
    ensures length { OnOk result (length marks.new.items ≡ length marks.old.items) }
    ensures grew { OnOk result (Grew order.old.items order.new.items all.now) }
{
    for q in all {
        let place = *q as usize;
        if !marks[place] {
            marks[place] = true;
            order.push(*q)?;
        }
    }
    Ok(())
}

/// Returns the marked numbers in ascending order.
fn numbers_of(alloc: Global, marks: &[bool]) -> Result<Vec<u32>, AllocError>
    requires { length marks.now ≤ 2 ^ 31 }
    ensures { IfOk result (λ found. found.items ≡ marked 0 marks.now) }
{
    let mut found = Vec::new(alloc);
    let mut number: u32 = 0;
    for mark in marks {
        if *mark {
            found.push(number)?;
        }
        number += 1;
    }
    Ok(found)
}
