//! Why reading stops.

ghost use Rattle.heyvl_parse.specs.declared.stops.PartStop.TheVariants.{Memory};
ghost use Rattle.std.specs.Prelude.{◌≡◌, alloc_error};

use std::alloc::{AllocError, AllocFailed};

/// Why a reader has not read what it reads.
#[derive(Drop)]
pub enum PartStop {
    /// An error at the first token with which nothing goes on, or at the end of the tokens. It is
    /// the number of tokens from there on: 0 at the end.
    Fault(usize),
    /// Memory ran out.
    Memory(AllocError),
}

impl From<AllocError> for PartStop {
    ghost from_gives = { λ error stop. stop ≡ Memory error };

    fn from(error: AllocError) -> Self {
        PartStop::Memory(error)
    }
}

impl<T: Drop> From<AllocFailed<T>> for PartStop {
    ghost from_gives = { λ _ stop. stop ≡ Memory alloc_error };

    fn from(failed: AllocFailed<T>) -> Self {
        PartStop::Memory(AllocError::from(failed))
    }
}
