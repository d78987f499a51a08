//! Why a file has no typed tree.

ghost use Rattle.std.specs.Prelude.{◌≡◌, alloc_error};
ghost use Rattle.typed_expressions.specs.declared.stops.ResolveStop.TheVariants.{Memory};

use heyvl_places::Span;
use std::alloc::{AllocError, AllocFailed};
use thiserror::Error;

/// Why a file has no typed tree.
#[derive(Debug, Drop, Error)]
pub enum ResolveStop {
    /// The first static error: its number and its place.
    #[error("fault {0} at the bytes {1}")]
    Fault(u8, Span),
    /// Memory ran out.
    #[error("out of memory")]
    Memory(AllocError),
}

impl From<AllocError> for ResolveStop {
    ghost from_gives = { λ error stop. stop ≡ Memory error };

    fn from(error: AllocError) -> Self {
        ResolveStop::Memory(error)
    }
}

impl<T: Drop> From<AllocFailed<T>> for ResolveStop {
    ghost from_gives = { λ _ stop. stop ≡ Memory alloc_error };

    fn from(failed: AllocFailed<T>) -> Self {
        ResolveStop::Memory(AllocError::from(failed))
    }
}
