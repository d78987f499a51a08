//! The variables that the state of an omega pair shows.

ghost use Rattle.heyvl_acts.specs.Acts.{acts_in};
ghost use Rattle.heyvl_acts.specs.PlainActs.{act_of, acts_of, procedure_of};
ghost use Rattle.lower_goals.specs.OmegaPairs.{places};
ghost use Rattle.lower_goals.specs.OneLoop.{OneLoop};
ghost use Rattle.lower_texts.specs.internal.FirstScopes.{first_scope, lent, own_scope};
ghost use Rattle.std.specs.Prelude.{IfOk, length, ◌<◌, ◌^◌, ◌≡◌};

use heyvl_acts::{Act, TProc};
use std::alloc::{AllocError, Global};

/// Returns the variables that are visible at the act, if it is a loop.
fn own_scope(act: &Act) -> Option<&[u32]>
    ensures { lent result ≡ own_scope (act_of act.now) }
{
    match act {
        Act::Loop(one) => Some(&one.scope),
        Act::Set(_, _, _) => None,
        Act::Draw(_, _, _) => None,
        Act::Toss(_, _, _) => None,
        Act::Any(_, _, _, _) => None,
        Act::Reward(_, _) => None,
        Act::If(_, _, _) => None,
        Act::Pick(_, _, _, _) => None,
        Act::Check(_, _, _) => None,
        Act::Validate(_, _) => None,
        Act::Call(_, _, _, _) => None,
    }
}

/// Returns the variables that are visible at the first loop of the acts, or no variables if there
/// is no loop. Loops inside other acts do not count.
fn scope_among(acts: &[Act]) -> &[u32]
    ensures { result.now ≡ first_scope (acts_of acts.now) }
{
    for act in acts {
        if let Some(scope) = own_scope(act) {
            return scope;
        }
    }
    &[]
}

/// Returns the variables that are visible at the first loop of a procedure's body.
fn scope_of(procedure: &TProc) -> &[u32]
    ensures { result.now ≡ first_scope (acts_in (procedure_of procedure.now).body) }
{
    match &procedure.body {
        Some(acts) => scope_among(acts),
        None => &[],
    }
}

/// Returns the variables of the scope of a procedure's one loop, then the number of iterations,
/// whose variable follows the procedure's.
pub(crate) fn shown_variables(alloc: Global, procedure: &TProc) -> Result<Vec<u32>, AllocError>
    requires { length procedure.now.vars.items < 2 ^ 31 }
    ensures { (l : OneLoop (procedure_of procedure.now))
        → IfOk result (λ shown. shown.items ≡ places (procedure_of procedure.now) l.head) }
{
    let mut shown = Vec::from_slice(alloc, scope_of(procedure))?;
    shown.push(procedure.vars.len() as u32)?;
    Ok(shown)
}
