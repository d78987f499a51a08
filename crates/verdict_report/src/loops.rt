//! The variables of a goal whose values a report shows.

ghost use Rattle.heyvl_acts.specs.Acts.{procedure_at};
ghost use Rattle.heyvl_acts.specs.PlainActs.{procedure_of, procedures_of};
ghost use Rattle.heyvl_acts.specs.Rules.{IsCounted, MeetsAllRules, counted};
ghost use Rattle.std.specs.Prelude.{◌≡◌, ◌≤◌, ◌+◌, ◌<◌, IfOk, length};
ghost use Rattle.verdict_report.specs.LoopScopes.{always_shown, interface_numbers, scope_of_loop};

use act_walks::loop_of;
use heylo_formula::GoalId;
use heyvl_acts::{TProc, Typed};
use std::alloc::{AllocError, Global};

/// Returns the numbers from 0 to `count` - 1.
fn first_numbers(alloc: Global, count: u32) -> Result<Vec<u32>, AllocError>
    ensures { IfOk result (λ all. all.items ≡ counted 0 count) }
{
    let mut all = Vec::new(alloc);
    let mut number = 0;
    while number < count {
        all.push(number)?;
        number += 1;
    }
    Ok(all)
}

/// Returns the numbers of the inputs and outputs of a procedure.
fn interface_numbers(alloc: Global, procedure: &TProc) -> Result<Vec<u32>, AllocError>
    requires counted { IsCounted procedure.now }
    requires few { procedure.now.inputs + procedure.now.outputs ≤ 16 }
    ensures { IfOk result (λ all. all.items ≡ interface_numbers (procedure_of procedure.now)) }
{
    first_numbers(alloc, procedure.inputs + procedure.outputs)
}

/// Returns the numbers of the inputs and outputs of the procedure with the number `proc`. Each
/// state in which its bound fails is shown by their values.
pub fn interface_of(alloc: Global, typed: &Typed, proc: u32) -> Result<Vec<u32>, AllocError>
    requires rules { MeetsAllRules typed.now }
    requires there { proc < length typed.now.procs.items }
    ensures { IfOk result (λ all. all.items
        ≡ interface_numbers (procedure_at (procedures_of typed.now) proc)) }
{
    interface_numbers(alloc, &typed.procs[proc as usize])
}

/// Returns the numbers of the variables of a procedure whose values are shown in each state of the
/// goal `id`.
pub(crate) fn always_shown(
    alloc: Global,
    procedure: &TProc,
    id: GoalId,
) -> Result<Vec<u32>, AllocError>
    requires counted { IsCounted procedure.now }
    requires few { procedure.now.inputs + procedure.now.outputs ≤ 16 }
    ensures { IfOk result (λ all. all.items ≡ always_shown (procedure_of procedure.now) id) }
{
    match id {
        GoalId::Main | GoalId::Pre | GoalId::Post => interface_numbers(alloc, procedure),
        GoalId::Invariant(number) | GoalId::Ranking(number) => {
            Vec::from_slice(alloc, scope_of_loop(procedure, number))
        }
    }
}

/// Returns the numbers of the variables that are visible at the procedure's loop with this number,
/// or none if it has no such loop.
fn scope_of_loop(procedure: &TProc, number: u32) -> &[u32]
    ensures { result.now ≡ scope_of_loop (procedure_of procedure.now) number }
{
    match loop_of(procedure, number) {
        None => &[],
        Some(one) => &one.scope,
    }
}
