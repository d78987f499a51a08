//! The visible variables.

ghost use Rattle.std.specs.Prelude.{◌++◌, ◌≡◌, ◌∷◌, [], IfOk, OnOk, false, length, take};
ghost use Rattle.typed_expressions.specs.Scopes.{Scope as Plain, find, is_visible, numbers};
ghost use Rattle.typed_expressions.specs.Scopes.{with_local};
ghost use Rattle.typed_expressions.specs.Views.{entries_of};

use heyvl_places::Name;
use heyvl_syntax::TypeName;
use indexmap::IndexMap;
use std::alloc::{AllocError, Global};
use std::marker::Model;

/// A visible variable: its number, and its declared type.
#[derive(Clone, Copy, Debug)]
pub struct Local {
    pub number: u32,
    pub ty: TypeName,
}

/// The visible variables by the bytes of their names, in the order of the declarations.
#[derive(Drop)]
pub struct Scope {
    entries: IndexMap<Vec<u8>, Local>,
}

impl Model for Scope {
    ghost Value = { Plain };

    ghost view = { λ scope. entries_of scope.entries.entries };
}

impl Scope {
    /// Returns a scope without variables.
    pub fn new(alloc: Global) -> Scope
        ensures { result ≡ [] }
    {
        Scope {
            entries: IndexMap::new(alloc),
        }
    }

    /// Returns the variable with this name, if one is visible.
    pub fn find(&self, name: &Name) -> Option<Local>
        ensures { result ≡ find self.now name.now }
    {
        self.entries.get(name.as_bytes()).copied()
    }

    /// Returns true if a variable with this name is visible.
    pub fn sees(&self, name: &Name) -> bool
        ensures { result ≡ is_visible self.now name.now }
    {
        self.find(name).is_some()
    }

    /// Returns the number of visible variables.
    pub fn len(&self) -> usize
        ensures { result ≡ length self.now }
    {
        self.entries.len()
    }

    /// Adds a visible variable: in place of the one with its name, or at the end.
    pub fn declare(&mut self, alloc: Global, name: &Name, local: Local) -> Result<(), AllocError>
        ensures shown { OnOk result (self.new ≡ with_local name.now local self.old) }
        ensures last { OnOk result (is_visible self.old name.now ≡ false
            → self.new ≡ self.old ++ (name.now, local) ∷ []) }
    {
        let bytes = Vec::from_slice(alloc, name.as_bytes())?;
        self.entries.insert(bytes, local)?;
        Ok(())
    }

    /// Keeps the first `kept` variables.
    pub fn truncate(&mut self, kept: usize)
        ensures { self.new ≡ take kept self.old }
    {
        self.entries.truncate(kept);
    }

    /// Returns the numbers of the visible variables, in the order of the declarations.
    pub fn numbers(&self, alloc: Global) -> Result<Vec<u32>, AllocError>
        ensures { IfOk result (λ all. all.items ≡ numbers self.now) }
    {
        let mut all = Vec::with_capacity(alloc, self.entries.len())?;
        for local in self.entries.values() {
            all.push(local.number)?;
        }
        Ok(all)
    }

    /// Returns a copy of the scope.
    pub fn copy(&self) -> Result<Scope, AllocError>
        ensures { IfOk result (λ scope. scope ≡ self.now) }
    {
        Ok(Scope {
            entries: self.entries.clone()?,
        })
    }
}
