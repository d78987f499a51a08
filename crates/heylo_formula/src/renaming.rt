//! Renaming of variables. Boxes are made in separate calls, so that each level of a deep tree needs
//! little stack.

ghost use Rattle.std.specs.Prelude.{◌≡◌, ◌==◌, IfOk, if◌then◌else◌};
ghost use Rattle.heylo_formula.specs.PlainTrees.{form_of, cond_of};
ghost use Rattle.heylo_formula.specs.Substitution.{renamed, renamed_in};

use crate::forms::{Cond, Form};
use std::alloc::{AllocError, Global};

impl Form {
    /// Returns the form with `to` in place of each free occurrence of `from`. If `to` does not
    /// occur in the form, its value is that in the state in which `from` has the value of `to`.
    #[cycle(renaming)]
    pub fn rename(&self, alloc: Global, from: u32, to: u32) -> Result<Form, AllocError>
        ensures { IfOk result (λ form. form_of form ≡ renamed from to (form_of self.now)) }
    {
        match self {
            Form::Const(v) => Ok(Form::Const(*v)),
            Form::Var(x) => Ok(Form::Var(if from == *x { to } else { *x })),
            Form::Sum(a, b) => {
                let (left, right) = Form::rename_both(alloc, a, b, from, to)?;
                Ok(Form::Sum(left, right))
            }
            Form::Diff(a, b) => {
                let (left, right) = Form::rename_both(alloc, a, b, from, to)?;
                Ok(Form::Diff(left, right))
            }
            Form::Cut(a, b) => {
                let (left, right) = Form::rename_both(alloc, a, b, from, to)?;
                Ok(Form::Cut(left, right))
            }
            Form::Scale(w, a) => Ok(Form::Scale(*w, a.rename_boxed(alloc, from, to)?)),
            Form::Product(a, b, span) => {
                let (left, right) = Form::rename_both(alloc, a, b, from, to)?;
                Ok(Form::Product(left, right, *span))
            }
            Form::Min(a, b) => {
                let (left, right) = Form::rename_both(alloc, a, b, from, to)?;
                Ok(Form::Min(left, right))
            }
            Form::Max(a, b) => {
                let (left, right) = Form::rename_both(alloc, a, b, from, to)?;
                Ok(Form::Max(left, right))
            }
            Form::Imply(a, b) => {
                let (left, right) = Form::rename_both(alloc, a, b, from, to)?;
                Ok(Form::Imply(left, right))
            }
            Form::CoImply(a, b) => {
                let (left, right) = Form::rename_both(alloc, a, b, from, to)?;
                Ok(Form::CoImply(left, right))
            }
            Form::Validate(a) => Ok(Form::Validate(a.rename_boxed(alloc, from, to)?)),
            Form::CoValidate(a) => Ok(Form::CoValidate(a.rename_boxed(alloc, from, to)?)),
            Form::Embed(g) => Ok(Form::Embed(g.rename_boxed(alloc, from, to)?)),
            Form::Iverson(g) => Ok(Form::Iverson(g.rename_boxed(alloc, from, to)?)),
            Form::Select(g, a, b) => {
                let test = g.rename_boxed(alloc, from, to)?;
                let (left, right) = Form::rename_both(alloc, a, b, from, to)?;
                Ok(Form::Select(test, left, right))
            }
            Form::Bind(up, y, name, ty, a) => Ok(Form::Bind(
                *up,
                *y,
                *name,
                *ty,
                a.rename_boxed(alloc, under(*y, from, to), to)?,
            )),
        }
    }

    /// Returns the renamed form, in a box.
    #[cycle(renaming)]
    #[inline(never)]
    pub(crate) fn rename_boxed(
        &self,
        alloc: Global,
        from: u32,
        to: u32,
    ) -> Result<Box<Form>, AllocError>
        ensures { IfOk result (λ boxed. form_of boxed.value ≡ renamed from to (form_of self.now)) }
    {
        Ok(Box::new(alloc, self.rename(alloc, from, to)?)?)
    }

    /// Returns both renamed forms, each in a box.
    #[cycle(renaming)]
    #[inline(never)]
    fn rename_both(
        alloc: Global,
        left: &Form,
        right: &Form,
        from: u32,
        to: u32,
    ) -> Result<(Box<Form>, Box<Form>), AllocError>
        ensures { IfOk result (λ both. (form_of both.0.value ≡ renamed from to (form_of left.now))
            × (form_of both.1.value ≡ renamed from to (form_of right.now))) }
    {
        let first = left.rename_boxed(alloc, from, to)?;
        Ok((first, right.rename_boxed(alloc, from, to)?))
    }
}

impl Cond {
    /// Returns the condition with `to` in place of each free occurrence of `from`.
    #[cycle(renaming)]
    pub fn rename(&self, alloc: Global, from: u32, to: u32) -> Result<Cond, AllocError>
        ensures { IfOk result (λ cond. cond_of cond ≡ renamed_in from to (cond_of self.now)) }
    {
        match self {
            Cond::Const(b) => Ok(Cond::Const(*b)),
            Cond::Var(x) => Ok(Cond::Var(if from == *x { to } else { *x })),
            Cond::Not(g) => Ok(Cond::Not(g.rename_boxed(alloc, from, to)?)),
            Cond::And(g, h) => {
                let (left, right) = Cond::rename_both(alloc, g, h, from, to)?;
                Ok(Cond::And(left, right))
            }
            Cond::Or(g, h) => {
                let (left, right) = Cond::rename_both(alloc, g, h, from, to)?;
                Ok(Cond::Or(left, right))
            }
            Cond::Same(g, h) => {
                let (left, right) = Cond::rename_both(alloc, g, h, from, to)?;
                Ok(Cond::Same(left, right))
            }
            Cond::Le(a, b) => {
                let (left, right) = Form::rename_both(alloc, a, b, from, to)?;
                Ok(Cond::Le(left, right))
            }
            Cond::Lt(a, b) => {
                let (left, right) = Form::rename_both(alloc, a, b, from, to)?;
                Ok(Cond::Lt(left, right))
            }
            Cond::EqNum(a, b) => {
                let (left, right) = Form::rename_both(alloc, a, b, from, to)?;
                Ok(Cond::EqNum(left, right))
            }
            Cond::Ite(g, h, k) => {
                let test = g.rename_boxed(alloc, from, to)?;
                let (left, right) = Cond::rename_both(alloc, h, k, from, to)?;
                Ok(Cond::Ite(test, left, right))
            }
        }
    }

    /// Returns the renamed condition, in a box.
    #[cycle(renaming)]
    #[inline(never)]
    fn rename_boxed(&self, alloc: Global, from: u32, to: u32) -> Result<Box<Cond>, AllocError>
        ensures { IfOk result (λ boxed. cond_of boxed.value
            ≡ renamed_in from to (cond_of self.now)) }
    {
        Ok(Box::new(alloc, self.rename(alloc, from, to)?)?)
    }

    /// Returns both renamed conditions, each in a box.
    #[cycle(renaming)]
    #[inline(never)]
    fn rename_both(
        alloc: Global,
        left: &Cond,
        right: &Cond,
        from: u32,
        to: u32,
    ) -> Result<(Box<Cond>, Box<Cond>), AllocError>
        ensures { IfOk result (λ both.
            (cond_of both.0.value ≡ renamed_in from to (cond_of left.now))
            × (cond_of both.1.value ≡ renamed_in from to (cond_of right.now))) }
    {
        let first = left.rename_boxed(alloc, from, to)?;
        Ok((first, right.rename_boxed(alloc, from, to)?))
    }
}

/// Returns the variable to rename in the body of a binder of `bound`. If it is `from`, nothing is
/// free to rename, and `to` is renamed to itself.
fn under(bound: u32, from: u32, to: u32) -> u32
    ensures { result ≡ (if from == bound then to else from) }
{
    if from == bound { to } else { from }
}
