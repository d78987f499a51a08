//! Occurrences of variables.

ghost use Rattle.std.specs.Prelude.{◌≡◌};
ghost use Rattle.heylo_formula.specs.PlainTrees.{form_of, cond_of, term_of};
ghost use Rattle.heylo_formula.specs.Variables.{is_free, is_free_in, occurs, occurs_in};
ghost use Rattle.heylo_formula.specs.Variables.{occurs_in_term};

use crate::forms::{Cond, Form};
use crate::terms::Term;

impl Form {
    /// Returns whether the variable occurs outside of every binder of it.
    #[cycle(frees)]
    pub fn free(&self, var: u32) -> bool
        ensures { result ≡ is_free var (form_of self.now) }
    {
        match self {
            Form::Const(_) => false,
            Form::Var(y) => var == *y,
            Form::Sum(a, b)
            | Form::Diff(a, b)
            | Form::Cut(a, b)
            | Form::Product(a, b, _)
            | Form::Min(a, b)
            | Form::Max(a, b)
            | Form::Imply(a, b)
            | Form::CoImply(a, b) => a.free(var) || b.free(var),
            Form::Scale(_, a) | Form::Validate(a) | Form::CoValidate(a) => a.free(var),
            Form::Embed(g) | Form::Iverson(g) => g.free(var),
            Form::Select(g, a, b) => g.free(var) || (a.free(var) || b.free(var)),
            Form::Bind(_, y, _, _, a) => if var == *y { false } else { a.free(var) },
        }
    }
}

impl Cond {
    /// Returns whether the variable occurs outside of every binder of it.
    #[cycle(frees)]
    pub fn free(&self, var: u32) -> bool
        ensures { result ≡ is_free_in var (cond_of self.now) }
    {
        match self {
            Cond::Const(_) => false,
            Cond::Var(y) => var == *y,
            Cond::Not(g) => g.free(var),
            Cond::And(g, h) | Cond::Or(g, h) | Cond::Same(g, h) => g.free(var) || h.free(var),
            Cond::Le(a, b) | Cond::Lt(a, b) | Cond::EqNum(a, b) => a.free(var) || b.free(var),
            Cond::Ite(g, h, k) => g.free(var) || (h.free(var) || k.free(var)),
        }
    }
}

impl Form {
    /// Returns whether the number occurs, as a variable or as the variable of a binder.
    #[cycle(occurring)]
    pub fn occurs(&self, var: u32) -> bool
        ensures { result ≡ occurs var (form_of self.now) }
    {
        match self {
            Form::Const(_) => false,
            Form::Var(y) => var == *y,
            Form::Sum(a, b)
            | Form::Diff(a, b)
            | Form::Cut(a, b)
            | Form::Product(a, b, _)
            | Form::Min(a, b)
            | Form::Max(a, b)
            | Form::Imply(a, b)
            | Form::CoImply(a, b) => a.occurs(var) || b.occurs(var),
            Form::Scale(_, a) | Form::Validate(a) | Form::CoValidate(a) => a.occurs(var),
            Form::Embed(g) | Form::Iverson(g) => g.occurs(var),
            Form::Select(g, a, b) => g.occurs(var) || (a.occurs(var) || b.occurs(var)),
            Form::Bind(_, y, _, _, a) => var == *y || a.occurs(var),
        }
    }
}

impl Cond {
    /// Returns whether the number occurs, as a variable or as the variable of a binder.
    #[cycle(occurring)]
    pub fn occurs(&self, var: u32) -> bool
        ensures { result ≡ occurs_in var (cond_of self.now) }
    {
        match self {
            Cond::Const(_) => false,
            Cond::Var(y) => var == *y,
            Cond::Not(g) => g.occurs(var),
            Cond::And(g, h) | Cond::Or(g, h) | Cond::Same(g, h) => g.occurs(var) || h.occurs(var),
            Cond::Le(a, b) | Cond::Lt(a, b) | Cond::EqNum(a, b) => a.occurs(var) || b.occurs(var),
            Cond::Ite(g, h, k) => g.occurs(var) || (h.occurs(var) || k.occurs(var)),
        }
    }
}

impl Term {
    /// Returns whether the number occurs, as a variable or as the variable of a binder.
    pub fn occurs(&self, var: u32) -> bool
        ensures { result ≡ occurs_in_term var (term_of self.now) }
    {
        match self {
            Term::Truth(g) => g.occurs(var),
            Term::Num(f) => f.occurs(var),
        }
    }
}
