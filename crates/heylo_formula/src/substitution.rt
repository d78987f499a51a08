//! Capture-avoiding substitution for a variable. Boxes are made in separate calls, so that each
//! level of a deep tree needs little stack.

ghost use Rattle.std.specs.Prelude.{◌≡◌, ◌+◌, ◌<◌, ◌^◌, IfOk, cond, ◌==◌, ◌||◌, ◌&&◌};
ghost use Rattle.heylo_formula.specs.Variables.{is_free, occurs, occurs_in_term};
ghost use Rattle.heylo_formula.specs.Formula.{Form as plain_form};
ghost use Rattle.heylo_formula.specs.PlainTrees.{form_of, cond_of, term_of};
ghost use Rattle.heylo_formula.specs.Sizes.{nodes, nodes_in, nodes_in_term};
ghost use Rattle.heylo_formula.specs.Substitution.{fresh, subst, subst_in, as_form, as_cond};
ghost use Rattle.heylo_formula.specs.Formula.{Cond as plain_cond};
ghost use Rattle.heylo_formula.specs.State.{Env, put};
ghost use Rattle.heylo_formula.specs.Choices.{Choices};
ghost use Rattle.heylo_formula.specs.Meaning.{value, holds, term_value};
ghost use Rattle.heylo_formula.specs.Binders.{IsPlain};

use crate::forms::{Cond, Form};
use crate::terms::Term;
use heyvl_num::Ext;
use std::alloc::{AllocError, Global};

impl Form {
    /// Returns the form with the term `with` in place of each free occurrence of `var`.
    ///
    /// A binder of `var` is kept as it is. A binder that would capture a variable of the term takes
    /// the least number from 1,048,576 on that occurs neither in its body nor in the term. If the
    /// term is plain, the value of the result is that of the form in the state in which `var` has
    /// the value of the term.
    pub fn subst(&self, alloc: Global, var: u32, with: &Term) -> Result<Form, AllocError>
        requires { nodes (form_of self.now) + nodes_in_term (term_of with.now) < 2 ^ 31 }
        ensures tree { IfOk result
            (λ form. form_of form ≡ subst var (term_of with.now) (form_of self.now)) }
        ensures value { IfOk result (λ form. IsPlain (term_of with.now) → (s : Env) (c : Choices)
            → value (form_of form) s c
            ≡ value (form_of self.now) (put var (term_value (term_of with.now) s) s) c) }
    {
        self.with_term(alloc, var, with)
    }
}

impl Cond {
    /// Returns the condition with the term `with` in place of each free occurrence of `var`, by the
    /// rules of `Form::subst`.
    pub fn subst(&self, alloc: Global, var: u32, with: &Term) -> Result<Cond, AllocError>
        requires { nodes_in (cond_of self.now) + nodes_in_term (term_of with.now) < 2 ^ 31 }
        ensures tree { IfOk result
            (λ c. cond_of c ≡ subst_in var (term_of with.now) (cond_of self.now)) }
        ensures truth { IfOk result (λ g. IsPlain (term_of with.now) → (s : Env) (c : Choices)
            → holds (cond_of g) s c
            ≡ holds (cond_of self.now) (put var (term_value (term_of with.now) s) s) c) }
    {
        self.with_term(alloc, var, with)
    }
}

impl Form {
    #[cycle(putting)]
    fn with_term(&self, alloc: Global, var: u32, with: &Term) -> Result<Form, AllocError>
        requires { nodes (form_of self.now) + nodes_in_term (term_of with.now) < 2 ^ 31 }
        ensures { IfOk result (λ form. form_of form
            ≡ subst var (term_of with.now) (form_of self.now)) }
    {
        match self {
            Form::Const(v) => Ok(Form::Const(*v)),
            Form::Var(x) => form_for(alloc, *x, var, with),
            Form::Sum(a, b) => {
                let (left, right) = Form::with_term_both(alloc, a, b, var, with)?;
                Ok(Form::Sum(left, right))
            }
            Form::Diff(a, b) => {
                let (left, right) = Form::with_term_both(alloc, a, b, var, with)?;
                Ok(Form::Diff(left, right))
            }
            Form::Cut(a, b) => {
                let (left, right) = Form::with_term_both(alloc, a, b, var, with)?;
                Ok(Form::Cut(left, right))
            }
            Form::Scale(w, a) => Ok(Form::Scale(*w, a.with_term_boxed(alloc, var, with)?)),
            Form::Product(a, b, span) => {
                let (left, right) = Form::with_term_both(alloc, a, b, var, with)?;
                Ok(Form::Product(left, right, *span))
            }
            Form::Min(a, b) => {
                let (left, right) = Form::with_term_both(alloc, a, b, var, with)?;
                Ok(Form::Min(left, right))
            }
            Form::Max(a, b) => {
                let (left, right) = Form::with_term_both(alloc, a, b, var, with)?;
                Ok(Form::Max(left, right))
            }
            Form::Imply(a, b) => {
                let (left, right) = Form::with_term_both(alloc, a, b, var, with)?;
                Ok(Form::Imply(left, right))
            }
            Form::CoImply(a, b) => {
                let (left, right) = Form::with_term_both(alloc, a, b, var, with)?;
                Ok(Form::CoImply(left, right))
            }
            Form::Validate(a) => Ok(Form::Validate(a.with_term_boxed(alloc, var, with)?)),
            Form::CoValidate(a) => Ok(Form::CoValidate(a.with_term_boxed(alloc, var, with)?)),
            Form::Embed(g) => Ok(Form::Embed(g.with_term_boxed(alloc, var, with)?)),
            Form::Iverson(g) => Ok(Form::Iverson(g.with_term_boxed(alloc, var, with)?)),
            Form::Select(g, a, b) => {
                let test = g.with_term_boxed(alloc, var, with)?;
                let (left, right) = Form::with_term_both(alloc, a, b, var, with)?;
                Ok(Form::Select(test, left, right))
            }
            Form::Bind(up, y, name, ty, a) => {
                if var == *y {
                    return Ok(Form::Bind(*up, *y, *name, *ty, a.copy_boxed(alloc)?));
                }
                if captures(*y, with, a, var) {
                    let number = fresh_number(a, with);
                    let body = a.rename_boxed(alloc, *y, number)?;
                    Ok(Form::Bind(
                        *up,
                        number,
                        *name,
                        *ty,
                        body.with_term_boxed(alloc, var, with)?,
                    ))
                } else {
                    Ok(Form::Bind(*up, *y, *name, *ty, a.with_term_boxed(alloc, var, with)?))
                }
            }
        }
    }

    /// Returns the result of `with_term`, in a box.
    #[cycle(putting)]
    #[inline(never)]
    fn with_term_boxed(&self, alloc: Global, var: u32, with: &Term) -> Result<Box<Form>, AllocError>
        requires { nodes (form_of self.now) + nodes_in_term (term_of with.now) < 2 ^ 31 }
        ensures { IfOk result (λ boxed. form_of boxed.value
            ≡ subst var (term_of with.now) (form_of self.now)) }
    {
        Ok(Box::new(alloc, self.with_term(alloc, var, with)?)?)
    }

    /// Returns the results of `with_term` for both forms, each in a box.
    #[cycle(putting)]
    #[inline(never)]
    fn with_term_both(
        alloc: Global,
        left: &Form,
        right: &Form,
        var: u32,
        with: &Term,
    ) -> Result<(Box<Form>, Box<Form>), AllocError>
        requires { nodes (form_of left.now) + nodes (form_of right.now)
            + nodes_in_term (term_of with.now) < 2 ^ 31 }
        ensures { IfOk result (λ both.
            (form_of both.0.value ≡ subst var (term_of with.now) (form_of left.now))
            × (form_of both.1.value ≡ subst var (term_of with.now) (form_of right.now))) }
    {
        let first = left.with_term_boxed(alloc, var, with)?;
        Ok((first, right.with_term_boxed(alloc, var, with)?))
    }
}

impl Cond {
    #[cycle(putting)]
    fn with_term(&self, alloc: Global, var: u32, with: &Term) -> Result<Cond, AllocError>
        requires { nodes_in (cond_of self.now) + nodes_in_term (term_of with.now) < 2 ^ 31 }
        ensures { IfOk result (λ cond. cond_of cond
            ≡ subst_in var (term_of with.now) (cond_of self.now)) }
    {
        match self {
            Cond::Const(b) => Ok(Cond::Const(*b)),
            Cond::Var(x) => cond_for(alloc, *x, var, with),
            Cond::Not(g) => Ok(Cond::Not(g.with_term_boxed(alloc, var, with)?)),
            Cond::And(g, h) => {
                let (left, right) = Cond::with_term_both(alloc, g, h, var, with)?;
                Ok(Cond::And(left, right))
            }
            Cond::Or(g, h) => {
                let (left, right) = Cond::with_term_both(alloc, g, h, var, with)?;
                Ok(Cond::Or(left, right))
            }
            Cond::Same(g, h) => {
                let (left, right) = Cond::with_term_both(alloc, g, h, var, with)?;
                Ok(Cond::Same(left, right))
            }
            Cond::Le(a, b) => {
                let (left, right) = Form::with_term_both(alloc, a, b, var, with)?;
                Ok(Cond::Le(left, right))
            }
            Cond::Lt(a, b) => {
                let (left, right) = Form::with_term_both(alloc, a, b, var, with)?;
                Ok(Cond::Lt(left, right))
            }
            Cond::EqNum(a, b) => {
                let (left, right) = Form::with_term_both(alloc, a, b, var, with)?;
                Ok(Cond::EqNum(left, right))
            }
            Cond::Ite(g, h, k) => {
                let test = g.with_term_boxed(alloc, var, with)?;
                let (left, right) = Cond::with_term_both(alloc, h, k, var, with)?;
                Ok(Cond::Ite(test, left, right))
            }
        }
    }

    /// Returns the result of `with_term`, in a box.
    #[cycle(putting)]
    #[inline(never)]
    fn with_term_boxed(&self, alloc: Global, var: u32, with: &Term) -> Result<Box<Cond>, AllocError>
        requires { nodes_in (cond_of self.now) + nodes_in_term (term_of with.now) < 2 ^ 31 }
        ensures { IfOk result (λ boxed. cond_of boxed.value
            ≡ subst_in var (term_of with.now) (cond_of self.now)) }
    {
        Ok(Box::new(alloc, self.with_term(alloc, var, with)?)?)
    }

    /// Returns the results of `with_term` for both conditions, each in a box.
    #[cycle(putting)]
    #[inline(never)]
    fn with_term_both(
        alloc: Global,
        left: &Cond,
        right: &Cond,
        var: u32,
        with: &Term,
    ) -> Result<(Box<Cond>, Box<Cond>), AllocError>
        requires { nodes_in (cond_of left.now) + nodes_in (cond_of right.now)
            + nodes_in_term (term_of with.now) < 2 ^ 31 }
        ensures { IfOk result (λ both.
            (cond_of both.0.value ≡ subst_in var (term_of with.now) (cond_of left.now))
            × (cond_of both.1.value ≡ subst_in var (term_of with.now) (cond_of right.now))) }
    {
        let first = left.with_term_boxed(alloc, var, with)?;
        Ok((first, right.with_term_boxed(alloc, var, with)?))
    }
}

/// Returns the least number from 1,048,576 on that occurs neither in the body nor in the term.
fn fresh_number(body: &Form, with: &Term) -> u32
    requires { nodes (form_of body.now) + nodes_in_term (term_of with.now) < 2 ^ 31 }
    ensures { result ≡ fresh (form_of body.now) (term_of with.now) }
{
    let mut number = 1_048_576;
    while is_taken(number, body, with) {
        number += 1;
    }
    number
}

/// Returns whether a binder of `number` with this body would capture a variable of the term.
fn captures(number: u32, with: &Term, body: &Form, var: u32) -> bool
    ensures { result ≡ (occurs_in_term number (term_of with.now)
        && is_free var (form_of body.now)) }
{
    with.occurs(number) && body.free(var)
}

/// Returns whether the number occurs in the body or in the term.
fn is_taken(number: u32, body: &Form, with: &Term) -> bool
    ensures { result ≡ (occurs number (form_of body.now)
        || occurs_in_term number (term_of with.now)) }
{
    body.occurs(number) || with.occurs(number)
}

/// Returns the form that replaces the numeric variable `x`: the term if `x` is `var`, where a
/// condition counts as 0.
fn form_for(alloc: Global, x: u32, var: u32, with: &Term) -> Result<Form, AllocError>
    ensures { IfOk result (λ form. form_of form
        ≡ cond (var == x) (as_form (term_of with.now)) (plain_form.variable x)) }
{
    if var != x {
        return Ok(Form::Var(x));
    }
    match with {
        Term::Num(f) => f.copy(alloc),
        Term::Truth(_) => Ok(Form::Const(Ext::zero())),
    }
}

/// Returns the condition that replaces the Boolean variable `x`: the term if `x` is `var`, where a
/// form counts as false.
fn cond_for(alloc: Global, x: u32, var: u32, with: &Term) -> Result<Cond, AllocError>
    ensures { IfOk result (λ c. cond_of c
        ≡ cond (var == x) (as_cond (term_of with.now)) (plain_cond.flag x)) }
{
    if var != x {
        return Ok(Cond::Var(x));
    }
    match with {
        Term::Truth(g) => g.copy(alloc),
        Term::Num(_) => Ok(Cond::Const(false)),
    }
}
