//! The Booleans that a path has decided.

ghost use Rattle.std.specs.Prelude.{◌≡◌, take, Bool, Option, Some, if◌then◌else◌};
ghost use Rattle.linear_form.specs.Query.{known, known_by};
ghost use Rattle.linear_form.specs.PlainPaths.{path_of, atom_of};

use crate::paths::{Atom, Taken};

/// Returns whether `atom` is the truth of the Boolean `x`.
fn asks_truth(atom: &Atom, x: u32) -> bool
    ensures { (held : Bool) (other : Option Bool)
        → known_by x (atom_of atom.now) held other ≡ (if result then Some held else other) }
{
    match atom {
        Atom::Truth(y) => x == *y,
        Atom::Row(_, _) => false,
    }
}

/// Returns the truth of the Boolean `x` if one of the first `count` answers of `path` decides it.
pub fn known_truth(x: u32, path: &[Taken], count: usize) -> Option<bool>
    ensures { result ≡ known x (take count (path_of path.now)) }
{
    let mut rest = path;
    let mut left = count;
    'search: while let Some((taken, others)) = rest.split_first() {
        if left == 0 {
            return None;
        }
        if asks_truth(&taken.atom, x) {
            return Some(taken.held);
        }
        rest = others;
        left -= 1;
    }
    None
}
