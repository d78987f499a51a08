//! Forms with a binder: substitution, renaming and sizes, worked out by hand.

use crate::kinds::{Kind, OfCondition, OfForm, check_texts};
use heylo_formula::{Cond, Form, Term};
use std::alloc::{AllocError, Global};
use std::fmt::Write;
use test_lines::{cut, index, write_numbers};
use test_texts::form_of;

/// Writes the number and the name of a binder, and the two variables of the sum below it.
fn write_sum(bound: u32, name: u32, body: &Form, text: &mut String) -> Result<(), AllocError> {
    match body {
        Form::Sum(a, b) => match (&**a, &**b) {
            (Form::Var(x), Form::Var(y)) => write_numbers(&[bound, name, *x, *y], text),
            _ => text.push_str("other"),
        },
        _ => text.push_str("other"),
    }
}

/// Writes a binder over a sum of two variables: its number, its name, and the two variables.
fn write_binder(form: &Form, text: &mut String) -> Result<(), AllocError> {
    match form {
        Form::Bind(_, bound, name, _, body) => write_sum(*bound, *name, body, text),
        _ => text.push_str("other"),
    }
}

fn write_substituted(
    alloc: Global,
    form: &Form,
    variable: u32,
    with: &Term,
    text: &mut String,
) -> Result<(), AllocError> {
    if form.nodes() >= 1 << 30 || with.nodes() >= 1 << 30 {
        return Err(AllocError);
    }
    write_binder(&form.subst(alloc, variable, with)?, text)?;
    text.push_str("of ")?;
    write_binder(form, text)
}

/// Writes the form with another one for a variable, and then the form itself.
pub fn write_substitution(
    alloc: Global,
    form: &Form,
    rest: &str,
    text: &mut String,
) -> Result<(), AllocError> {
    let (variable, with) = cut(rest, ';');
    let variable = index(variable)?;
    write_substituted(
        alloc,
        form,
        variable,
        &Term::Num(Box::into_inner(form_of(alloc, with)?)),
        text,
    )
}

fn write_renamed(
    alloc: Global,
    form: &Form,
    from: u32,
    to: u32,
    text: &mut String,
) -> Result<(), AllocError> {
    write_binder(&form.rename(alloc, from, to)?, text)
}

/// Writes the form with another variable for a variable.
pub fn write_renaming(
    alloc: Global,
    form: &Form,
    rest: &str,
    text: &mut String,
) -> Result<(), AllocError> {
    let (from, to) = cut(rest, ';');
    let from = index(from)?;
    let to = index(to)?;
    write_renamed(alloc, form, from, to, text)
}

fn truth(holds: bool) -> &'static str {
    if holds { "true " } else { "false " }
}

fn write_sizes(nodes: u64, depth: u64, text: &mut String) -> Result<(), AllocError> {
    write!(text, "{nodes} {depth}")
}

/// Writes whether a variable is free in the form and whether it occurs, then the number of nodes
/// and the depth of the form.
pub fn write_size(form: &Form, variable: &str, text: &mut String) -> Result<(), AllocError> {
    let variable = index(variable)?;
    text.push_str(truth(form.free(variable)))?;
    text.push_str(truth(form.occurs(variable)))?;
    write_sizes(form.nodes(), form.depth(), text)
}

/// Writes the number of nodes and the depth of a condition.
pub fn write_condition_size(condition: &Cond, text: &mut String) -> Result<(), AllocError> {
    write_sizes(condition.nodes(), condition.depth(), text)
}

/// The question has the binder's number, the sum, the variable to replace and the form for it. The
/// result has the number, the name and the sum after the substitution, then those of the original
/// form.
const SUBSTITUTIONS: &str = "\
v0 v1 + bind:1 ; 0 ; v1 gives 1048576 1 1 1048576 of 1 1 0 1
v0 v1 + bind:1 ; 0 ; v2 gives 1 1 2 1 of 1 1 0 1
v0 v1 + bind:1 ; 1 ; v2 gives 1 1 0 1 of 1 1 0 1
v2 v1 + bind:1 ; 0 ; v1 gives 1 1 2 1 of 1 1 2 1
v0 v1048576 + bind:1 ; 0 ; v1 gives 1048577 1 1 1048576 of 1 1 0 1048576";

const RENAMINGS: &str = "\
v0 v1 + bind:1 ; 0 ; 7 gives 1 1 7 1
v0 v1 + bind:1 ; 1 ; 7 gives 1 1 0 1";

/// The variable 1 is bound, and the variable 2 does not occur.
const SIZES: &str = "\
v0 v1 + bind:1 ; 0 gives true true 4 3
v0 v1 + bind:1 ; 1 gives false true 4 3
v0 v1 + bind:1 ; 2 gives false false 4 3";

#[test]
fn formulas(rt: HostRuntime) -> Result<(), AllocError> {
    check_texts(&rt, Kind::Form(OfForm::Substitution), &[SUBSTITUTIONS])?;
    check_texts(&rt, Kind::Form(OfForm::Renaming), &[RENAMINGS])?;
    check_texts(&rt, Kind::Form(OfForm::Size), &[SIZES])?;
    check_texts(
        &rt,
        Kind::Condition(OfCondition::Size),
        &["v0 v1 + bind:1 x <= gives 6 4"],
    )
}
