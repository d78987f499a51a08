//! The prenexed form, in which each occurrence of a binder is a variable.

ghost use Rattle.std.specs.Prelude.{◌≡◌, ◌+◌, ◌<◌, ◌^◌, ◌++◌, ◌∷◌, length, IfOk};
ghost use Prim.Native.Nat.{suc};
ghost use Rattle.heylo_formula.specs.Formula.{Form as plain, Cond as plain_cond};
ghost use Rattle.heylo_formula.specs.PlainTrees.{form_of, cond_of};
ghost use Rattle.vp_generator.specs.PrenexedForms.{prenexed, renumbered, unbound, unbound_in};
ghost use Rattle.heylo_formula.specs.BinderNames.{binders, binders_in};
ghost use Rattle.heyvl_acts.specs.Rules.{AreNamed};
ghost use Rattle.vp_generator.specs.Scopes.{named};
ghost use Rattle.vp_generator.specs.internal.Lookup.{number_in};

use crate::prenexed_forms::Prenex;
use heylo_formula::{Cond, Form, Ty};
use heyvl_acts::VarInfo;
use std::alloc::{AllocError, Global};

/// Returns the number of a variable under the binders in `scope`, which are listed with their new
/// numbers, the innermost last.
fn number_in(scope: &[(u32, u32)], var: u32) -> u32
    ensures { result ≡ number_in scope.now var }
{
    let mut rest = scope;
    'binders: while let Some((last, outer)) = rest.split_last() {
        if last.0 == var {
            return last.1;
        }
        rest = outer;
    }
    var
}

/// Returns the form without binders, and appends these to `found`. The first binder of `found` has
/// the number `first`. The scope is left as it was, unless memory runs out.
#[cycle(unbinding)]
fn form_unbound(
    alloc: Global,
    form: &Form,
    scope: &mut Vec<(u32, u32)>,
    first: u32,
    found: &mut Vec<(u32, Ty)>,
) -> Result<Form, AllocError>
    requires { first + length found.now.items + length (binders (form_of form.now)) < 2 ^ 31 }
    ensures tree { IfOk result
        (λ g. form_of g ≡ unbound (number_in scope.old.items) (first + length found.old.items)
        (form_of form.now)) }
    ensures found { IfOk result
        (λ g. found.new.items ≡ found.old.items ++ binders (form_of form.now)) }
    ensures scope { IfOk result (λ _. scope.new.items ≡ scope.old.items) }
{
    match form {
        Form::Const(v) => Ok(Form::Const(*v)),
        Form::Var(x) => Ok(Form::Var(number_in(scope, *x))),
        Form::Sum(a, b) => {
            let (left, right) = both(alloc, a, b, scope, first, found)?;
            Ok(Form::Sum(left, right))
        }
        Form::Diff(a, b) => {
            let (left, right) = both(alloc, a, b, scope, first, found)?;
            Ok(Form::Diff(left, right))
        }
        Form::Cut(a, b) => {
            let (left, right) = both(alloc, a, b, scope, first, found)?;
            Ok(Form::Cut(left, right))
        }
        Form::Scale(w, a) => Ok(Form::Scale(*w, one(alloc, a, scope, first, found)?)),
        Form::Product(a, b, span) => {
            let (left, right) = both(alloc, a, b, scope, first, found)?;
            Ok(Form::Product(left, right, *span))
        }
        Form::Min(a, b) => {
            let (left, right) = both(alloc, a, b, scope, first, found)?;
            Ok(Form::Min(left, right))
        }
        Form::Max(a, b) => {
            let (left, right) = both(alloc, a, b, scope, first, found)?;
            Ok(Form::Max(left, right))
        }
        Form::Imply(a, b) => {
            let (left, right) = both(alloc, a, b, scope, first, found)?;
            Ok(Form::Imply(left, right))
        }
        Form::CoImply(a, b) => {
            let (left, right) = both(alloc, a, b, scope, first, found)?;
            Ok(Form::CoImply(left, right))
        }
        Form::Validate(a) => Ok(Form::Validate(one(alloc, a, scope, first, found)?)),
        Form::CoValidate(a) => Ok(Form::CoValidate(one(alloc, a, scope, first, found)?)),
        Form::Embed(g) => Ok(Form::Embed(one_in(alloc, g, scope, first, found)?)),
        Form::Iverson(g) => Ok(Form::Iverson(one_in(alloc, g, scope, first, found)?)),
        Form::Select(g, a, b) => choice(alloc, g, a, b, scope, first, found),
        Form::Bind(_, x, name, ty, a) => body(alloc, *x, (*name, *ty), a, scope, first, found),
    }
}

#[cycle(unbinding)]
fn cond_unbound(
    alloc: Global,
    cond: &Cond,
    scope: &mut Vec<(u32, u32)>,
    first: u32,
    found: &mut Vec<(u32, Ty)>,
) -> Result<Cond, AllocError>
    requires { first + length found.now.items + length (binders_in (cond_of cond.now)) < 2 ^ 31 }
    ensures tree { IfOk result
        (λ g. cond_of g ≡ unbound_in (number_in scope.old.items) (first + length found.old.items)
        (cond_of cond.now)) }
    ensures found { IfOk result
        (λ g. found.new.items ≡ found.old.items ++ binders_in (cond_of cond.now)) }
    ensures scope { IfOk result (λ _. scope.new.items ≡ scope.old.items) }
{
    match cond {
        Cond::Const(b) => Ok(Cond::Const(*b)),
        Cond::Var(x) => Ok(Cond::Var(number_in(scope, *x))),
        Cond::Not(g) => Ok(Cond::Not(one_in(alloc, g, scope, first, found)?)),
        Cond::And(g, h) => {
            let (left, right) = both_in(alloc, g, h, scope, first, found)?;
            Ok(Cond::And(left, right))
        }
        Cond::Or(g, h) => {
            let (left, right) = both_in(alloc, g, h, scope, first, found)?;
            Ok(Cond::Or(left, right))
        }
        Cond::Same(g, h) => {
            let (left, right) = both_in(alloc, g, h, scope, first, found)?;
            Ok(Cond::Same(left, right))
        }
        Cond::Le(a, b) => {
            let (left, right) = both(alloc, a, b, scope, first, found)?;
            Ok(Cond::Le(left, right))
        }
        Cond::Lt(a, b) => {
            let (left, right) = both(alloc, a, b, scope, first, found)?;
            Ok(Cond::Lt(left, right))
        }
        Cond::EqNum(a, b) => {
            let (left, right) = both(alloc, a, b, scope, first, found)?;
            Ok(Cond::EqNum(left, right))
        }
        Cond::Ite(g, h, k) => choice_in(alloc, g, h, k, scope, first, found),
    }
}

#[cycle(unbinding)]
fn one(
    alloc: Global,
    a: &Form,
    scope: &mut Vec<(u32, u32)>,
    first: u32,
    found: &mut Vec<(u32, Ty)>,
) -> Result<Box<Form>, AllocError>
    requires { first + length found.now.items + length (binders (form_of a.now)) < 2 ^ 31 }
    ensures tree { IfOk result
        (λ g. form_of g.value ≡ unbound (number_in scope.old.items) (first + length found.old.items)
        (form_of a.now)) }
    ensures found { IfOk result
        (λ g. found.new.items ≡ found.old.items ++ binders (form_of a.now)) }
    ensures scope { IfOk result (λ _. scope.new.items ≡ scope.old.items) }
{
    Ok(Box::new(alloc, form_unbound(alloc, a, scope, first, found)?)?)
}

#[cycle(unbinding)]
fn one_in(
    alloc: Global,
    g: &Cond,
    scope: &mut Vec<(u32, u32)>,
    first: u32,
    found: &mut Vec<(u32, Ty)>,
) -> Result<Box<Cond>, AllocError>
    requires { first + length found.now.items + length (binders_in (cond_of g.now)) < 2 ^ 31 }
    ensures tree { IfOk result
        (λ r. cond_of r.value
        ≡ unbound_in (number_in scope.old.items) (first + length found.old.items) (cond_of g.now)) }
    ensures found { IfOk result
        (λ r. found.new.items ≡ found.old.items ++ binders_in (cond_of g.now)) }
    ensures scope { IfOk result (λ _. scope.new.items ≡ scope.old.items) }
{
    Ok(Box::new(alloc, cond_unbound(alloc, g, scope, first, found)?)?)
}

#[cycle(unbinding)]
fn both(
    alloc: Global,
    a: &Form,
    b: &Form,
    scope: &mut Vec<(u32, u32)>,
    first: u32,
    found: &mut Vec<(u32, Ty)>,
) -> Result<(Box<Form>, Box<Form>), AllocError>
    requires { first + length found.now.items
        + length (binders (form_of a.now) ++ binders (form_of b.now)) < 2 ^ 31 }
    ensures left { IfOk result
        (λ r. form_of r.0.value
        ≡ unbound (number_in scope.old.items) (first + length found.old.items) (form_of a.now)) }
    ensures right { IfOk result
        (λ r. form_of r.1.value
        ≡ unbound (number_in scope.old.items)
        (first + length found.old.items + length (binders (form_of a.now))) (form_of b.now)) }
    ensures found { IfOk result
        (λ r. found.new.items ≡ found.old.items
        ++ (binders (form_of a.now) ++ binders (form_of b.now))) }
    ensures scope { IfOk result (λ _. scope.new.items ≡ scope.old.items) }
{
    let left = one(alloc, a, scope, first, found)?;
    let right = one(alloc, b, scope, first, found)?;
    Ok((left, right))
}

#[cycle(unbinding)]
fn both_in(
    alloc: Global,
    g: &Cond,
    h: &Cond,
    scope: &mut Vec<(u32, u32)>,
    first: u32,
    found: &mut Vec<(u32, Ty)>,
) -> Result<(Box<Cond>, Box<Cond>), AllocError>
    requires { first + length found.now.items
        + length (binders_in (cond_of g.now) ++ binders_in (cond_of h.now)) < 2 ^ 31 }
    ensures left { IfOk result
        (λ r. cond_of r.0.value
        ≡ unbound_in (number_in scope.old.items) (first + length found.old.items) (cond_of g.now)) }
    ensures right { IfOk result
        (λ r. cond_of r.1.value
        ≡ unbound_in (number_in scope.old.items)
        (first + length found.old.items + length (binders_in (cond_of g.now))) (cond_of h.now)) }
    ensures found { IfOk result
        (λ r. found.new.items ≡ found.old.items
        ++ (binders_in (cond_of g.now) ++ binders_in (cond_of h.now))) }
    ensures scope { IfOk result (λ _. scope.new.items ≡ scope.old.items) }
{
    let left = one_in(alloc, g, scope, first, found)?;
    let right = one_in(alloc, h, scope, first, found)?;
    Ok((left, right))
}

#[cycle(unbinding)]
fn choice(
    alloc: Global,
    g: &Cond,
    a: &Form,
    b: &Form,
    scope: &mut Vec<(u32, u32)>,
    first: u32,
    found: &mut Vec<(u32, Ty)>,
) -> Result<Form, AllocError>
    requires { first + length found.now.items
        + length (binders (plain.select (cond_of g.now) (form_of a.now) (form_of b.now))) < 2 ^ 31 }
    ensures tree { IfOk result
        (λ r. form_of r ≡ unbound (number_in scope.old.items) (first + length found.old.items)
        (plain.select (cond_of g.now) (form_of a.now) (form_of b.now))) }
    ensures found { IfOk result
        (λ r. found.new.items ≡ found.old.items
        ++ binders (plain.select (cond_of g.now) (form_of a.now) (form_of b.now))) }
    ensures scope { IfOk result (λ _. scope.new.items ≡ scope.old.items) }
{
    let test = one_in(alloc, g, scope, first, found)?;
    let (left, right) = both(alloc, a, b, scope, first, found)?;
    Ok(Form::Select(test, left, right))
}

#[cycle(unbinding)]
fn choice_in(
    alloc: Global,
    g: &Cond,
    h: &Cond,
    k: &Cond,
    scope: &mut Vec<(u32, u32)>,
    first: u32,
    found: &mut Vec<(u32, Ty)>,
) -> Result<Cond, AllocError>
    requires { first + length found.now.items
        + length (binders_in (plain_cond.ite (cond_of g.now) (cond_of h.now) (cond_of k.now)))
        < 2 ^ 31 }
    ensures tree { IfOk result
        (λ r. cond_of r ≡ unbound_in (number_in scope.old.items) (first + length found.old.items)
        (plain_cond.ite (cond_of g.now) (cond_of h.now) (cond_of k.now))) }
    ensures found { IfOk result
        (λ r. found.new.items ≡ found.old.items
        ++ binders_in (plain_cond.ite (cond_of g.now) (cond_of h.now) (cond_of k.now))) }
    ensures scope { IfOk result (λ _. scope.new.items ≡ scope.old.items) }
{
    let test = one_in(alloc, g, scope, first, found)?;
    let (left, right) = both_in(alloc, h, k, scope, first, found)?;
    Ok(Cond::Ite(test, left, right))
}

#[cycle(unbinding)]
fn body(
    alloc: Global,
    var: u32,
    binder: (u32, Ty),
    a: &Form,
    scope: &mut Vec<(u32, u32)>,
    first: u32,
    found: &mut Vec<(u32, Ty)>,
) -> Result<Form, AllocError>
    requires { first + length found.now.items + length (binder ∷ binders (form_of a.now)) < 2 ^ 31 }
    ensures tree { IfOk result
        (λ r. form_of r
        ≡ unbound (renumbered var (first + length found.old.items) (number_in scope.old.items))
        (suc (first + length found.old.items)) (form_of a.now)) }
    ensures found { IfOk result
        (λ r. found.new.items ≡ found.old.items ++ (binder ∷ binders (form_of a.now))) }
    ensures scope { IfOk result (λ _. scope.new.items ≡ scope.old.items) }
{
    let outer = scope.len();
    let number = first + found.len() as u32;
    scope.push((var, number))?;
    found.push(binder)?;
    let without = form_unbound(alloc, a, scope, first, found)?;
    scope.truncate(outer);
    Ok(without)
}

/// Returns the prenexed form, and appends one variable for each binder to `vars`. A form without
/// binders stays as it is.
pub fn prenex(alloc: Global, form: Form, vars: Vec<VarInfo>) -> Result<Prenex, AllocError>
    requires few { length vars.items + length (binders (form_of form)) < 2 ^ 31 }
    requires named { AreNamed (length vars.items) (binders (form_of form)) }
    ensures tree { IfOk result (λ p. form_of p.form ≡ prenexed (length vars.items) (form_of form)) }
    ensures vars { IfOk result (λ p. p.vars.items ≡ named vars.items (binders (form_of form))) }
{
    if !form.has_binder() {
        return Ok(Prenex { form, vars });
    }
    let mut scope = Vec::new(alloc);
    let mut found = Vec::new(alloc);
    let without = form_unbound(alloc, &form, &mut scope, vars.len() as u32, &mut found)?;
    let all = with_vars(alloc, vars, &found)?;
    Ok(Prenex {
        form: without,
        vars: all,
    })
}

/// Returns the variables, then one for each binder.
fn with_vars(
    alloc: Global,
    vars: Vec<VarInfo>,
    found: &[(u32, Ty)],
) -> Result<Vec<VarInfo>, AllocError>
    requires { AreNamed (length vars.items) found.now }
    ensures { IfOk result (λ all. all.items ≡ named vars.items found.now) }
{
    let mut all = vars;
    let mut rest = found;
    'found: while let Some((binder, more)) = rest.split_first() {
        let name = all[binder.0 as usize].name.copy(alloc)?;
        all.push(VarInfo { name, ty: binder.1 })?;
        rest = more;
    }
    Ok(all)
}
