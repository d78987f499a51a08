//! The procedures that a body calls.

ghost use Rattle.act_walks.specs.Lent.{lent};
ghost use Rattle.heyvl_acts.specs.Acts.{acts_in};
ghost use Rattle.heyvl_acts.specs.Places.{in_order};
ghost use Rattle.heyvl_acts.specs.PlainActs.{procedure_of};
ghost use Rattle.proc_contracts.specs.internal.Callees.{callees};
ghost use Rattle.std.specs.Prelude.{IfOk, map, ◌≡◌};

use act_walks::in_order;
use heyvl_acts::{Act, TProc};
use std::alloc::{AllocError, Global};

/// Returns the procedures that a body calls, in the order of the text, each as often as it is
/// called.
pub(crate) fn calls_of(alloc: Global, procedure: &TProc) -> Result<Vec<u32>, AllocError>
    ensures { IfOk result (λ called. called.items
        ≡ callees (in_order (acts_in (procedure_of procedure.now).body))) }
{
    let all = in_order(alloc, procedure)?;
    calls_among(alloc, &all)
}

/// Returns the procedures that the acts of a list call, without the acts inside them.
fn calls_among(alloc: Global, all: &[&Act]) -> Result<Vec<u32>, AllocError>
    ensures { IfOk result (λ called. called.items ≡ callees (map lent all.now)) }
{
    let mut called = Vec::new(alloc);
    for act in all {
        if let Act::Call(_, procedure, _, _) = act {
            called.push(*procedure)?;
        }
    }
    Ok(called)
}
