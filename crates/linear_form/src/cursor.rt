//! Results of an evaluation along a path, and the reasons why it stops.

ghost use Rattle.std.specs.Prelude.{◌≡◌, ◌+◌, alloc_error, drop, true, false, IfOk};
ghost use Rattle.linear_form.specs.Query.Query.{ask, done};
ghost use Rattle.linear_form.specs.internal.Run.{along, turned, Evaluation};
ghost use Rattle.linear_form.specs.PlainPaths.{path_of, atom_of};
ghost use Rattle.linear_form.specs.internal.EvaluationResults.{GivesTruth};

use crate::known_truths::known_truth;
use crate::paths::{Atom, Taken};
use linear_values::Lin;
use std::alloc::{AllocError, AllocFailed, Global};
use std::rc::Rc;

/// A linear value, or None for infinity, and the index of the next answer of the path.
#[derive(Drop)]
pub struct Found {
    pub value: Option<Lin>,
    pub next: usize,
}

/// A truth value, and the index of the next answer of the path.
#[derive(Clone, Copy)]
pub struct Tested {
    pub holds: bool,
    pub next: usize,
}

/// The reason why an evaluation stops. It is small, because each operator passes it on.
#[derive(Drop)]
pub enum Stop {
    /// The path has no answer to this comparison.
    Decide(Rc<Atom, Global>),
    /// A number reaches 2^62.
    Bits,
    Memory(AllocError),
}

impl From<AllocError> for Stop {
    ghost use Rattle.linear_form.specs.declared.cursor.Stop.{Stop};

    ghost from_gives = { λ e r. r ≡ Stop.Memory e };

    fn from(e: AllocError) -> Stop {
        Stop::Memory(e)
    }
}

impl<T: Drop> From<AllocFailed<T>> for Stop {
    ghost use Rattle.linear_form.specs.declared.cursor.Stop.{Stop};

    ghost from_gives = { λ _ r. r ≡ Stop.Memory alloc_error };

    fn from(failed: AllocFailed<T>) -> Stop {
        Stop::Memory(AllocError::from(failed))
    }
}

/// Returns the answer of `path` at index `at`, or `atom` if the path has ended.
pub fn answered(atom: &Rc<Atom, Global>, path: &[Taken], at: usize) -> Result<Tested, Stop>
    ensures { GivesTruth result
        (turned (drop at (path_of path.now)) (atom_of atom.now.value)
        (Evaluation.value true (at + 1)) (Evaluation.value false (at + 1))) }
{
    if at < path.len() {
        Ok(Tested {
            holds: path[at].held,
            next: at + 1,
        })
    } else {
        Err(Stop::Decide(Rc::clone(atom)?))
    }
}

/// Returns the answer to `atom`. A Boolean that the first `at` answers decide is not asked again.
pub fn answer(atom: &Rc<Atom, Global>, path: &[Taken], at: usize) -> Result<Tested, Stop>
    ensures { GivesTruth result
        (along (path_of path.now) (ask (atom_of atom.now.value) (done true) (done false)) at) }
{
    match &**atom {
        Atom::Truth(x) => match known_truth(*x, path, at) {
            Some(holds) => Ok(Tested { holds, next: at }),
            None => answered(atom, path, at),
        },
        Atom::Row(_, _) => answered(atom, path, at),
    }
}
