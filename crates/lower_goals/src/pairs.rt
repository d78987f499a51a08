//! Omega pairs: a proc with `@wlp` and one loop, and a procedure that gives a formula for it.

ghost use Rattle.heylo_formula.specs.PlainTrees.{form_of};
ghost use Rattle.heyvl_acts.proofs.exported.PlainActsAre.{head_of};
ghost use Rattle.heyvl_acts.specs.FormSizes.{FormsWithin};
ghost use Rattle.heyvl_acts.specs.PlainActs.{procedure_of, procedures_of};
ghost use Rattle.heyvl_acts.specs.Rules.{Each, IsCounted, MeetsAllRules};
ghost use Rattle.lower_goals.specs.OmegaPairs.{IsOmegaPair, formula_of};
ghost use Rattle.lower_goals.specs.internal.Pairs.{IsBare, IsPlainOver, wanted};
ghost use Rattle.lower_goals.specs.LentOmegaPairs.{IsPairOf};
ghost use Rattle.std.specs.Prelude.{IfOk, [], false, length, take, true, ◌+◌, ◌<◌, ◌^◌, ◌≡◌};
ghost use Rattle.vp_generator.specs.PrenexedGoals.{types_of_variables};

use crate::placed_forms::placed;
use crate::shapes::one_loop;
use heylo_formula::{Form, Ty};
use heyvl_acts::{Act, LoopAct, TProc, Typed, VarInfo};
use std::alloc::{AllocError, Global};

/// An omega pair: the first procedure, its loop and the acts after it, the second procedure, and
/// its formula.
#[derive(Drop)]
pub struct Pair<'a> {
    pub procedure: &'a TProc,
    pub one: &'a LoopAct,
    pub behind: &'a [Act],
    pub other: &'a TProc,
    pub formula: Form,
}

/// Returns the omega pair of the procedures `p` and `q`, or `None` exactly if they are none.
pub fn pair_of<'a>(
    alloc: Global,
    typed: &'a Typed,
    p: u32,
    q: u32,
) -> Result<Option<Pair<'a>>, AllocError>
    requires first { p < length typed.now.procs.items }
    requires second { q < length typed.now.procs.items }
    requires rules { MeetsAllRules typed.now }
    requires small { Each (FormsWithin (2 ^ 27)) (procedures_of typed.now) }
    ensures { IfOk result (λ pair. IsPairOf typed.now p q pair) }
{
    let Some(parts) = one_loop(typed, p) else {
        return Ok(None);
    };
    let procedure = &typed.procs[p as usize];
    let other = &typed.procs[q as usize];
    if !is_pair(procedure, parts.one, other) {
        return Ok(None);
    }
    let formula = formula_for(alloc, procedure, parts.one, other)?;
    Ok(Some(Pair {
        procedure,
        one: parts.one,
        behind: parts.behind,
        other,
        formula,
    }))
}

/// Returns the formula that the second procedure gives for the loop of the first one.
fn formula_for(
    alloc: Global,
    procedure: &TProc,
    one: &LoopAct,
    other: &TProc,
) -> Result<Form, AllocError>
    requires few { length procedure.now.vars.items < 1000 }
    requires visible { length one.now.scope.items < 1000 }
    requires below { Each (λ x. x < length procedure.now.vars.items) one.now.scope.items }
    requires pre { IsPlainOver (length one.now.scope.items + 1) (form_of other.now.pre) }
    ensures { IfOk result (λ form. form_of form
        ≡ formula_of (procedure_of procedure.now) (head_of one.now) (procedure_of other.now)) }
{
    let mut places = one.scope.clone()?;
    places.push(procedure.vars.len() as u32)?;
    placed(alloc, &other.pre, &places)
}

/// Returns whether the second procedure gives a formula for the loop of the first one.
fn is_pair(procedure: &TProc, one: &LoopAct, other: &TProc) -> bool
    requires below { Each (λ x. x < length procedure.now.vars.items) one.now.scope.items }
    requires counted { IsCounted other.now }
    ensures yes { result ≡ true
        → IsOmegaPair (procedure_of procedure.now) (head_of one.now) (procedure_of other.now) }
    ensures no { result ≡ false
        → IsOmegaPair (procedure_of procedure.now) (head_of one.now) (procedure_of other.now) → ⊥ }
{
    if !is_bare(other) {
        return false;
    }
    have_types(&procedure.vars, &one.scope, inputs_of(other))
}

/// Returns whether the procedure is a proc without body and outputs.
fn is_bare(other: &TProc) -> bool
    ensures yes { result ≡ true → IsBare other.now }
    ensures no { result ≡ false → IsBare other.now → ⊥ }
{
    if other.co || other.outputs != 0 {
        return false;
    }
    match &other.body {
        Some(_) => false,
        None => true,
    }
}

/// Returns the inputs of a procedure.
fn inputs_of(procedure: &TProc) -> &[VarInfo]
    requires { IsCounted procedure.now }
    ensures { result.now ≡ take procedure.now.inputs procedure.now.vars.items }
{
    &procedure.vars[..procedure.inputs as usize]
}

/// Returns whether the inputs have the types of the variables in the scope, in order, and then
/// UInt.
fn have_types(own: &[VarInfo], scope: &[u32], inputs: &[VarInfo]) -> bool
    requires below { Each (λ x. x < length own.now) scope.now }
    ensures yes { result ≡ true → types_of_variables inputs.now ≡ wanted own.now scope.now }
    ensures no { result ≡ false → types_of_variables inputs.now ≡ wanted own.now scope.now → ⊥ }
{
    let mut rest = inputs;
    for x in scope {
        let Some((input, more)) = rest.split_first() else {
            return false;
        };
        if input.ty != own[*x as usize].ty {
            return false;
        }
        rest = more;
    }
    is_one_number(rest)
}

/// Returns whether there is exactly one variable, and it is a UInt.
fn is_one_number(rest: &[VarInfo]) -> bool
    ensures yes { result ≡ true → types_of_variables rest.now ≡ wanted rest.now [] }
    ensures no { result ≡ false → types_of_variables rest.now ≡ wanted rest.now [] → ⊥ }
{
    match rest.split_first() {
        Some((last, more)) => more.is_empty() && last.ty == Ty::UInt,
        None => false,
    }
}
