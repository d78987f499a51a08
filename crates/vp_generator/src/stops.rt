//! Errors of generating a form.

ghost use Rattle.std.specs.Prelude.{◌≡◌, alloc_error};
ghost use Rattle.vp_generator.specs.declared.stops.VpStop.TheVariants.{Memory};

use std::alloc::{AllocError, AllocFailed};
use thiserror::Error;

/// An error of generating a form.
#[derive(Debug, Drop, Error)]
pub enum VpStop {
    /// The form is more than 1,000 deep.
    #[error("the form is more than 1,000 deep")]
    Depth,
    /// The form has more nodes than allowed: 200,000, or the limit that the caller passes.
    #[error("the form has too many nodes")]
    Nodes,
    /// Memory ran out.
    #[error("out of memory")]
    Memory(AllocError),
}

impl From<AllocError> for VpStop {
    ghost from_gives = { λ error stop. stop ≡ Memory error };

    fn from(error: AllocError) -> Self {
        VpStop::Memory(error)
    }
}

impl<T: Drop> From<AllocFailed<T>> for VpStop {
    ghost from_gives = { λ _ stop. stop ≡ Memory alloc_error };

    fn from(failed: AllocFailed<T>) -> Self {
        VpStop::Memory(AllocError::from(failed))
    }
}
