//! The encoding of a call. The fresh variables for the callee's inputs and outputs are numbered
//! from `first` on.

ghost use Rattle.heylo_formula.specs.PlainTrees.{form_of, term_of};
ghost use Rattle.heylo_formula.specs.Shifts.{shifted};
ghost use Rattle.heyvl_acts.specs.Acts.{Act as plain_act, Acts as plain_acts, join, type_list};
ghost use Rattle.heyvl_acts.specs.PlainActs.{acts_of, procedure_of, terms_of};
ghost use Rattle.k_induction.specs.Copies.{may, must};
ghost use Rattle.loop_encodings.specs.Encoding.{any_block, gets, read, sets};
ghost use Rattle.loop_encodings.specs.internal.Ready.{IsCallee, plain_variables, returned};
ghost use Rattle.std.specs.Prelude.{OnOk, length, ◌+◌, ◌^◌, ◌≡◌, ◌≤◌};

use crate::variables::outputs_of;
use heylo_formula::{Cond, Form, Term, Ty};
use heyvl_acts::{Act, TProc, VarInfo};
use heyvl_places::Span;
use k_induction::{may, must};
use std::alloc::{AllocError, Global};

/// Appends the assignments of the arguments to the fresh inputs, and the assertion of the pre.
pub(crate) fn add_entry(
    alloc: Global,
    callee: &TProc,
    up: bool,
    first: u32,
    arguments: &[Term],
    span: Span,
    made: &mut Vec<Act>,
) -> Result<(), AllocError>
    requires callee { IsCallee callee.now }
    requires room { first + length arguments.now ≤ 2 ^ 31 }
    ensures { OnOk result ((rest : plain_acts)
        → join (acts_of made.new.items) rest
        ≡ join (acts_of made.old.items)
        (sets span first (terms_of arguments.now)
        (plain_acts.next (plain_act.check (must up) (shifted first (form_of callee.now.pre)) span)
        rest))) }
{
    add_sets(alloc, first, arguments, span, made)?;
    let pre = callee.pre.shifted(alloc, first)?;
    made.push(Act::Check(must(up), pre, span))?;
    Ok(())
}

/// Appends the assignments of the arguments to the variables from `first` on.
fn add_sets(
    alloc: Global,
    first: u32,
    arguments: &[Term],
    span: Span,
    made: &mut Vec<Act>,
) -> Result<(), AllocError>
    requires { first + length arguments.now ≤ 2 ^ 31 }
    ensures { OnOk result ((rest : plain_acts)
        → join (acts_of made.new.items) rest
        ≡ join (acts_of made.old.items) (sets span first (terms_of arguments.now) rest)) }
{
    let mut x = first;
    for argument in arguments {
        made.push(Act::Set(x, argument.copy(alloc)?, span))?;
        x += 1;
    }
    Ok(())
}

/// Appends the arbitrary values of the fresh outputs, the assumption of the post, and the
/// assignments of the outputs to the targets.
pub(crate) fn add_return(
    alloc: Global,
    callee: &TProc,
    up: bool,
    first: u32,
    targets: &[u32],
    span: Span,
    made: &mut Vec<Act>,
) -> Result<(), AllocError>
    requires callee { IsCallee callee.now }
    requires room { first ≤ 2 ^ 30 }
    requires targets { length targets.now ≡ length (procedure_of callee.now).outputs }
    ensures { OnOk result (acts_of made.new.items
        ≡ join (acts_of made.old.items)
        (returned up span first targets.now (procedure_of callee.now))) }
{
    let outputs = outputs_of(callee);
    let from = first + callee.inputs;
    add_any(up, from, outputs, span, made)?;
    made.push(Act::Validate(up, span))?;
    let post = callee.post.shifted(alloc, first)?;
    made.push(Act::Check(may(up), post, span))?;
    add_gets(targets, outputs, from, span, made)?;
    Ok(())
}

/// Appends acts by which the variables from `first` on take any values of these variables' types.
fn add_any(
    up: bool,
    first: u32,
    all: &[VarInfo],
    span: Span,
    made: &mut Vec<Act>,
) -> Result<(), AllocError>
    requires { first + length all.now ≤ 2 ^ 31 }
    ensures { OnOk result ((rest : plain_acts)
        → join (acts_of made.new.items) rest
        ≡ join (acts_of made.old.items)
        (any_block up span first (type_list (plain_variables all.now)) rest)) }
{
    let mut x = first;
    for variable in all {
        made.push(Act::Any(x, up, variable.ty, span))?;
        x += 1;
    }
    Ok(())
}

/// Appends the assignments of the variables from `first` on, which have these variables' types, to
/// the targets.
fn add_gets(
    targets: &[u32],
    all: &[VarInfo],
    first: u32,
    span: Span,
    made: &mut Vec<Act>,
) -> Result<(), AllocError>
    requires room { first + length all.now ≤ 2 ^ 31 }
    requires targets { length targets.now ≡ length all.now }
    ensures { OnOk result (acts_of made.new.items
        ≡ join (acts_of made.old.items)
        (gets span targets.now (type_list (plain_variables all.now)) first)) }
{
    let mut x = first;
    for i in 0..targets.len() {
        made.push(Act::Set(targets[i], read(x, all[i].ty), span))?;
        x += 1;
    }
    Ok(())
}

/// Returns the variable `x` of the type as a term.
fn read(x: u32, ty: Ty) -> Term
    ensures { term_of result ≡ read x ty }
{
    match ty {
        Ty::Bool => Term::Truth(Cond::Var(x)),
        Ty::Int => Term::Num(Form::Var(x)),
        Ty::UInt => Term::Num(Form::Var(x)),
        Ty::UReal => Term::Num(Form::Var(x)),
    }
}
