//! The test for binders.

ghost use Rattle.heylo_formula.specs.Binders.{has_binder, has_binder_in};
ghost use Rattle.heylo_formula.specs.PlainTrees.{cond_of, form_of};
ghost use Rattle.std.specs.Prelude.{◌≡◌};

use crate::forms::{Cond, Form};

impl Form {
    /// Returns whether the form contains a binder.
    #[cycle(quantifiers)]
    pub fn has_binder(&self) -> bool
        ensures { result ≡ has_binder (form_of self.now) }
    {
        match self {
            Form::Const(_) | Form::Var(_) => false,
            Form::Sum(a, b)
            | Form::Diff(a, b)
            | Form::Cut(a, b)
            | Form::Product(a, b, _)
            | Form::Min(a, b)
            | Form::Max(a, b)
            | Form::Imply(a, b)
            | Form::CoImply(a, b) => a.has_binder() || b.has_binder(),
            Form::Scale(_, a) | Form::Validate(a) | Form::CoValidate(a) => a.has_binder(),
            Form::Embed(g) | Form::Iverson(g) => g.has_binder(),
            Form::Select(g, a, b) => g.has_binder() || (a.has_binder() || b.has_binder()),
            Form::Bind(_, _, _, _, _) => true,
        }
    }
}

impl Cond {
    /// Returns whether the condition contains a binder.
    #[cycle(quantifiers)]
    pub fn has_binder(&self) -> bool
        ensures { result ≡ has_binder_in (cond_of self.now) }
    {
        match self {
            Cond::Const(_) | Cond::Var(_) => false,
            Cond::Not(g) => g.has_binder(),
            Cond::And(g, h) | Cond::Or(g, h) | Cond::Same(g, h) => g.has_binder() || h.has_binder(),
            Cond::Le(a, b) | Cond::Lt(a, b) | Cond::EqNum(a, b) => a.has_binder() || b.has_binder(),
            Cond::Ite(g, h, k) => g.has_binder() || (h.has_binder() || k.has_binder()),
        }
    }
}
