//! The encoding of a procedure's body, in the order of the text.

ghost use Rattle.heylo_formula.specs.Typing.{IsFormula, types_in};
ghost use Rattle.heyvl_acts.specs.Acts.{Acts as plain_acts, acts_in, join, procedure_at, type_list};
ghost use Rattle.heyvl_acts.specs.Count.{count_of};
ghost use Rattle.heyvl_acts.specs.PlainActs.{act_of, acts_of, procedure_of, procedures_of};
ghost use Rattle.heyvl_acts.specs.PlainActs.{variable_of};
ghost use Rattle.heyvl_acts.specs.Rules.{MeetsAllRules};
ghost use Rattle.heyvl_acts.specs.WellTypedActs.{ActsFit};
ghost use Rattle.loop_encodings.specs.Encoding.{all_variables, encoded, encoded_act, encoding};
ghost use Rattle.loop_encodings.specs.Fresh.{fresh, fresh_of_act};
ghost use Rattle.loop_encodings.specs.internal.Ready.{AreReady, IsReady, plain_variables};
ghost use Rattle.std.specs.Prelude.{IfOk, OnOk, length, map, ◌++◌, ◌+◌, ◌<◌, ◌^◌, ◌≡◌, ◌≤◌};

use crate::calls::{add_entry, add_return};
use crate::encoded_bodies::Encoded;
use crate::loops::add_loop;
use crate::variables::{add_variables, interface_of};
use heyvl_acts::{Act, TProc, Typed, VarInfo};
use std::alloc::{AllocError, Global};

/// Returns the encoding of the body of the procedure `p`, which contains no loop and no call.
/// Without a body it has no acts.
pub fn encode(alloc: Global, typed: &Typed, p: u32) -> Result<Encoded, AllocError>
    requires there { p < length typed.now.procs.items }
    requires rules { MeetsAllRules typed.now }
    ensures acts { IfOk result (λ made. acts_of made.acts.items
        ≡ encoding (procedures_of typed.now) (procedure_at (procedures_of typed.now) p)) }
    ensures vars { IfOk result (λ made. map variable_of made.vars.items
        ≡ all_variables (procedures_of typed.now) (procedure_at (procedures_of typed.now) p)) }
    ensures typed { IfOk result
        (λ made. ActsFit (types_in (type_list (map variable_of made.vars.items)))
        (acts_of made.acts.items)) }
    ensures post { IfOk result
        (λ made. IsFormula (types_in (type_list (map variable_of made.vars.items)))
        (procedure_at (procedures_of typed.now) p).post) }
    ensures count { IfOk result (λ made. count_of (acts_of made.acts.items)
        ≡ count_of (acts_in (procedure_at (procedures_of typed.now) p).body)) }
{
    let procedure = &typed.procs[p as usize];
    let mut vars = Vec::new(alloc);
    add_variables(alloc, &procedure.vars, &mut vars)?;
    let acts = body_acts(alloc, typed, procedure, &mut vars)?;
    Ok(Encoded { acts, vars })
}

/// Returns the encoding of the body, if there is one, and appends the fresh variables to `vars`.
fn body_acts(
    alloc: Global,
    typed: &Typed,
    procedure: &TProc,
    vars: &mut Vec<VarInfo>,
) -> Result<Vec<Act>, AllocError>
    requires rules { MeetsAllRules typed.now }
    requires ready { AreReady (procedures_of typed.now) (procedure_of procedure.now)
        (acts_in (procedure_of procedure.now).body) }
    requires room { length (plain_variables vars.old.items)
        + length (fresh (procedures_of typed.now) (acts_in (procedure_of procedure.now).body))
        ≤ 2 ^ 30 }
    ensures acts { IfOk result
        (λ made. acts_of made.items
        ≡ encoded (procedures_of typed.now) (procedure_of procedure.now)
        (length (plain_variables vars.old.items)) (acts_in (procedure_of procedure.now).body)) }
    ensures vars { OnOk result (plain_variables vars.new.items ≡ plain_variables vars.old.items
        ++ fresh (procedures_of typed.now) (acts_in (procedure_of procedure.now).body)) }
{
    match &procedure.body {
        Some(acts) => encoded_acts(alloc, typed, procedure, vars, acts),
        None => Ok(Vec::new(alloc)),
    }
}

/// Returns the encoding of the acts, and appends the fresh variables to `vars`.
#[cycle(encoding)]
fn encoded_acts(
    alloc: Global,
    typed: &Typed,
    procedure: &TProc,
    vars: &mut Vec<VarInfo>,
    acts: &[Act],
) -> Result<Vec<Act>, AllocError>
    requires rules { MeetsAllRules typed.now }
    requires ready { AreReady (procedures_of typed.now) (procedure_of procedure.now)
        (acts_of acts.now) }
    requires room { length (plain_variables vars.old.items)
        + length (fresh (procedures_of typed.now) (acts_of acts.now)) ≤ 2 ^ 30 }
    ensures acts { IfOk result
        (λ made. acts_of made.items
        ≡ encoded (procedures_of typed.now) (procedure_of procedure.now)
        (length (plain_variables vars.old.items)) (acts_of acts.now)) }
    ensures vars { OnOk result (plain_variables vars.new.items ≡ plain_variables vars.old.items
        ++ fresh (procedures_of typed.now) (acts_of acts.now)) }
{
    let mut made = Vec::new(alloc);
    for act in acts {
        add_act(alloc, typed, procedure, vars, &mut made, act)?;
    }
    Ok(made)
}

/// Appends the encoding of the act to `made`, and its fresh variables to `vars`.
#[cycle(encoding)]
fn add_act(
    alloc: Global,
    typed: &Typed,
    procedure: &TProc,
    vars: &mut Vec<VarInfo>,
    made: &mut Vec<Act>,
    act: &Act,
) -> Result<(), AllocError>
    requires rules { MeetsAllRules typed.now }
    requires ready { IsReady (procedures_of typed.now) (procedure_of procedure.now)
        (act_of act.now) }
    requires room { length (plain_variables vars.old.items)
        + length (fresh_of_act (procedures_of typed.now) (act_of act.now)) ≤ 2 ^ 30 }
    ensures acts { OnOk result
        (acts_of made.new.items
        ≡ join (acts_of made.old.items)
        (encoded_act (procedures_of typed.now) (procedure_of procedure.now)
        (length (plain_variables vars.old.items)) (act_of act.now))) }
    ensures vars { OnOk result (plain_variables vars.new.items ≡ plain_variables vars.old.items
        ++ fresh_of_act (procedures_of typed.now) (act_of act.now)) }
{
    match act {
        Act::If(arms, other, span) => {
            let mut encoded = Vec::new(alloc);
            for arm in arms {
                let guard = arm.0.copy(alloc)?;
                let block = encoded_acts(alloc, typed, procedure, vars, &arm.1)?;
                encoded.push((guard, block))?;
            }
            let last = encoded_acts(alloc, typed, procedure, vars, other)?;
            made.push(Act::If(encoded, last, *span))?;
            Ok(())
        }
        Act::Pick(up, left, right, span) => {
            let first = encoded_acts(alloc, typed, procedure, vars, left)?;
            let second = encoded_acts(alloc, typed, procedure, vars, right)?;
            made.push(Act::Pick(*up, first, second, *span))?;
            Ok(())
        }
        Act::Loop(one) => {
            let body = encoded_acts(alloc, typed, procedure, vars, &one.body)?;
            add_loop(alloc, procedure, one, &body, made)?;
            Ok(())
        }
        Act::Call(targets, q, arguments, span) => {
            let callee = &typed.procs[*q as usize];
            let first = vars.len() as u32;
            add_variables(alloc, interface_of(callee), vars)?;
            add_entry(alloc, callee, procedure.co, first, arguments, *span, made)?;
            add_return(alloc, callee, procedure.co, first, targets, *span, made)?;
            Ok(())
        }
        Act::Set(_, _, _) => {
            add_copy(alloc, made, act)?;
            Ok(())
        }
        Act::Draw(_, _, _) => {
            add_copy(alloc, made, act)?;
            Ok(())
        }
        Act::Toss(_, _, _) => {
            add_copy(alloc, made, act)?;
            Ok(())
        }
        Act::Any(_, _, _, _) => {
            add_copy(alloc, made, act)?;
            Ok(())
        }
        Act::Reward(_, _) => {
            add_copy(alloc, made, act)?;
            Ok(())
        }
        Act::Check(_, _, _) => {
            add_copy(alloc, made, act)?;
            Ok(())
        }
        Act::Validate(_, _) => {
            add_copy(alloc, made, act)?;
            Ok(())
        }
    }
}

/// Appends a copy of the act.
fn add_copy(alloc: Global, made: &mut Vec<Act>, act: &Act) -> Result<(), AllocError>
    ensures { OnOk result (acts_of made.new.items
        ≡ join (acts_of made.old.items) (plain_acts.next (act_of act.now) plain_acts.done)) }
{
    made.push(act.copy(alloc)?)?;
    Ok(())
}
