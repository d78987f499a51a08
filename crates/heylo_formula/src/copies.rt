//! Copies of trees. A copy is the tree in which a variable is renamed to itself.

ghost use Rattle.std.specs.Prelude.{◌≡◌, IfOk};
ghost use Rattle.heylo_formula.specs.PlainTrees.{form_of, cond_of, term_of};

use crate::forms::{Cond, Form};
use crate::terms::Term;
use std::alloc::{AllocError, Global};

impl Form {
    /// Returns a copy of the form.
    pub fn copy(&self, alloc: Global) -> Result<Form, AllocError>
        ensures { IfOk result (λ form. form_of form ≡ form_of self.now) }
    {
        self.rename(alloc, 0, 0)
    }

    /// Returns a copy of the form, in a box.
    pub(crate) fn copy_boxed(&self, alloc: Global) -> Result<Box<Form>, AllocError>
        ensures { IfOk result (λ boxed. form_of boxed.value ≡ form_of self.now) }
    {
        self.rename_boxed(alloc, 0, 0)
    }
}

impl Cond {
    /// Returns a copy of the condition.
    pub fn copy(&self, alloc: Global) -> Result<Cond, AllocError>
        ensures { IfOk result (λ cond. cond_of cond ≡ cond_of self.now) }
    {
        self.rename(alloc, 0, 0)
    }
}

impl Term {
    /// Returns a copy of the term.
    pub fn copy(&self, alloc: Global) -> Result<Term, AllocError>
        ensures { IfOk result (λ term. term_of term ≡ term_of self.now) }
    {
        match self {
            Term::Truth(g) => Ok(Term::Truth(g.copy(alloc)?)),
            Term::Num(f) => Ok(Term::Num(f.copy(alloc)?)),
        }
    }
}
