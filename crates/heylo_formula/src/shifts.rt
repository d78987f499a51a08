//! Shifted forms. Boxes are made in separate calls, so that each level of a deep tree needs little
//! stack.

ghost use Rattle.std.specs.Prelude.{◌≡◌, ◌+◌, ◌≤◌, ◌^◌, IfOk};
ghost use Rattle.heylo_formula.specs.PlainTrees.{form_of, cond_of};
ghost use Rattle.heylo_formula.specs.Shifts.{shifted, shifted_in, extent, extent_in};

use crate::forms::{Cond, Form};
use std::alloc::{AllocError, Global};

impl Form {
    /// Returns the form with `by` added to the number of each variable, bound variables included,
    /// so that no binder captures. The names of binders do not change.
    #[cycle(shifting)]
    pub fn shifted(&self, alloc: Global, by: u32) -> Result<Form, AllocError>
        requires { by + extent (form_of self.now) ≤ 2 ^ 32 }
        ensures { IfOk result (λ form. form_of form ≡ shifted by (form_of self.now)) }
    {
        match self {
            Form::Const(v) => Ok(Form::Const(*v)),
            Form::Var(x) => Ok(Form::Var(by + *x)),
            Form::Sum(a, b) => {
                let (left, right) = Form::shifted_both(alloc, a, b, by)?;
                Ok(Form::Sum(left, right))
            }
            Form::Diff(a, b) => {
                let (left, right) = Form::shifted_both(alloc, a, b, by)?;
                Ok(Form::Diff(left, right))
            }
            Form::Cut(a, b) => {
                let (left, right) = Form::shifted_both(alloc, a, b, by)?;
                Ok(Form::Cut(left, right))
            }
            Form::Scale(w, a) => Ok(Form::Scale(*w, a.shifted_boxed(alloc, by)?)),
            Form::Product(a, b, span) => {
                let (left, right) = Form::shifted_both(alloc, a, b, by)?;
                Ok(Form::Product(left, right, *span))
            }
            Form::Min(a, b) => {
                let (left, right) = Form::shifted_both(alloc, a, b, by)?;
                Ok(Form::Min(left, right))
            }
            Form::Max(a, b) => {
                let (left, right) = Form::shifted_both(alloc, a, b, by)?;
                Ok(Form::Max(left, right))
            }
            Form::Imply(a, b) => {
                let (left, right) = Form::shifted_both(alloc, a, b, by)?;
                Ok(Form::Imply(left, right))
            }
            Form::CoImply(a, b) => {
                let (left, right) = Form::shifted_both(alloc, a, b, by)?;
                Ok(Form::CoImply(left, right))
            }
            Form::Validate(a) => Ok(Form::Validate(a.shifted_boxed(alloc, by)?)),
            Form::CoValidate(a) => Ok(Form::CoValidate(a.shifted_boxed(alloc, by)?)),
            Form::Embed(g) => Ok(Form::Embed(g.shifted_boxed(alloc, by)?)),
            Form::Iverson(g) => Ok(Form::Iverson(g.shifted_boxed(alloc, by)?)),
            Form::Select(g, a, b) => {
                let test = g.shifted_boxed(alloc, by)?;
                let (left, right) = Form::shifted_both(alloc, a, b, by)?;
                Ok(Form::Select(test, left, right))
            }
            Form::Bind(up, x, name, ty, a) => Ok(Form::Bind(
                *up,
                by + *x,
                *name,
                *ty,
                a.shifted_boxed(alloc, by)?,
            )),
        }
    }

    /// Returns the shifted form, in a box.
    #[cycle(shifting)]
    #[inline(never)]
    fn shifted_boxed(&self, alloc: Global, by: u32) -> Result<Box<Form>, AllocError>
        requires { by + extent (form_of self.now) ≤ 2 ^ 32 }
        ensures { IfOk result (λ boxed. form_of boxed.value ≡ shifted by (form_of self.now)) }
    {
        Ok(Box::new(alloc, self.shifted(alloc, by)?)?)
    }

    /// Returns both shifted forms, each in a box.
    #[cycle(shifting)]
    #[inline(never)]
    fn shifted_both(
        alloc: Global,
        left: &Form,
        right: &Form,
        by: u32,
    ) -> Result<(Box<Form>, Box<Form>), AllocError>
        requires left_fits { by + extent (form_of left.now) ≤ 2 ^ 32 }
        requires right_fits { by + extent (form_of right.now) ≤ 2 ^ 32 }
        ensures { IfOk result (λ both. (form_of both.0.value ≡ shifted by (form_of left.now))
            × (form_of both.1.value ≡ shifted by (form_of right.now))) }
    {
        let first = left.shifted_boxed(alloc, by)?;
        Ok((first, right.shifted_boxed(alloc, by)?))
    }
}

impl Cond {
    /// Returns the condition with `by` added to the number of each variable, bound variables
    /// included.
    #[cycle(shifting)]
    pub fn shifted(&self, alloc: Global, by: u32) -> Result<Cond, AllocError>
        requires { by + extent_in (cond_of self.now) ≤ 2 ^ 32 }
        ensures { IfOk result (λ cond. cond_of cond ≡ shifted_in by (cond_of self.now)) }
    {
        match self {
            Cond::Const(b) => Ok(Cond::Const(*b)),
            Cond::Var(x) => Ok(Cond::Var(by + *x)),
            Cond::Not(g) => Ok(Cond::Not(g.shifted_boxed(alloc, by)?)),
            Cond::And(g, h) => {
                let (left, right) = Cond::shifted_both(alloc, g, h, by)?;
                Ok(Cond::And(left, right))
            }
            Cond::Or(g, h) => {
                let (left, right) = Cond::shifted_both(alloc, g, h, by)?;
                Ok(Cond::Or(left, right))
            }
            Cond::Same(g, h) => {
                let (left, right) = Cond::shifted_both(alloc, g, h, by)?;
                Ok(Cond::Same(left, right))
            }
            Cond::Le(a, b) => {
                let (left, right) = Form::shifted_both(alloc, a, b, by)?;
                Ok(Cond::Le(left, right))
            }
            Cond::Lt(a, b) => {
                let (left, right) = Form::shifted_both(alloc, a, b, by)?;
                Ok(Cond::Lt(left, right))
            }
            Cond::EqNum(a, b) => {
                let (left, right) = Form::shifted_both(alloc, a, b, by)?;
                Ok(Cond::EqNum(left, right))
            }
            Cond::Ite(g, h, k) => {
                let test = g.shifted_boxed(alloc, by)?;
                let (left, right) = Cond::shifted_both(alloc, h, k, by)?;
                Ok(Cond::Ite(test, left, right))
            }
        }
    }

    /// Returns the shifted condition, in a box.
    #[cycle(shifting)]
    #[inline(never)]
    fn shifted_boxed(&self, alloc: Global, by: u32) -> Result<Box<Cond>, AllocError>
        requires { by + extent_in (cond_of self.now) ≤ 2 ^ 32 }
        ensures { IfOk result (λ boxed. cond_of boxed.value ≡ shifted_in by (cond_of self.now)) }
    {
        Ok(Box::new(alloc, self.shifted(alloc, by)?)?)
    }

    /// Returns both shifted conditions, each in a box.
    #[cycle(shifting)]
    #[inline(never)]
    fn shifted_both(
        alloc: Global,
        left: &Cond,
        right: &Cond,
        by: u32,
    ) -> Result<(Box<Cond>, Box<Cond>), AllocError>
        requires left_fits { by + extent_in (cond_of left.now) ≤ 2 ^ 32 }
        requires right_fits { by + extent_in (cond_of right.now) ≤ 2 ^ 32 }
        ensures { IfOk result (λ both. (cond_of both.0.value ≡ shifted_in by (cond_of left.now))
            × (cond_of both.1.value ≡ shifted_in by (cond_of right.now))) }
    {
        let first = left.shifted_boxed(alloc, by)?;
        Ok((first, right.shifted_boxed(alloc, by)?))
    }
}
