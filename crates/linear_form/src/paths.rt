//! Comparisons and answers.

ghost use Rattle.std.specs.Prelude.{◌≡◌, IfOk, IsTrue};
ghost use Rattle.linear_form.specs.PlainPaths.{atom_of};
ghost use Rattle.linear_form.specs.internal.LastingTrees.{IsComparison};

use linear_values::Lin;
use linear_values::lin::copy;
use std::alloc::{AllocError, Global};

/// A comparison.
#[derive(Drop)]
pub enum Atom {
    /// Whether a Boolean variable is true.
    Truth(u32),
    /// Whether a linear value is at most 0 or, if the flag is set, below 0.
    Row(Lin, bool),
}

/// A comparison, which may be a split of an integer variable, with its answer.
#[derive(Drop)]
pub struct Taken {
    pub atom: Atom,
    pub held: bool,
}

/// Returns a copy of `atom`.
pub fn copy_atom(alloc: Global, atom: &Atom) -> Result<Atom, AllocError>
    ensures { IfOk result (λ a. atom_of a ≡ atom_of atom.now) }
{
    match atom {
        Atom::Truth(x) => Ok(Atom::Truth(*x)),
        Atom::Row(left, strict) => Ok(Atom::Row(copy(alloc, left)?, *strict)),
    }
}

/// Returns whether `atom` compares numbers.
pub(crate) fn is_comparison(atom: &Atom) -> bool
    ensures { IsTrue result → IsComparison (atom_of atom.now) }
{
    matches!(atom, Atom::Row(_, _))
}
