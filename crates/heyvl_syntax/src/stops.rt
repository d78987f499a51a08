//! Why lexing stops.

ghost use Rattle.heyvl_syntax.specs.declared.stops.LexStop.TheVariants.{Memory};
ghost use Rattle.std.specs.Prelude.{◌≡◌, alloc_error};

use heyvl_places::Span;
use std::alloc::{AllocError, AllocFailed};
use thiserror::Error;

/// The reason why bytes have no list of tokens.
#[derive(Debug, Drop, Error)]
pub enum LexStop {
    /// The leftmost error, with its number and its bytes: 1, a byte at which no token, white space
    /// or comment begins; 2, a `/*` without `*/`; 3, a number that exceeds the limits of literals.
    #[error("fault {0} at the bytes {1}")]
    Fault(u8, Span),
    /// Memory ran out.
    #[error("out of memory")]
    Memory(AllocError),
}

impl From<AllocError> for LexStop {
    ghost from_gives = { λ error stop. stop ≡ Memory error };

    fn from(error: AllocError) -> Self {
        LexStop::Memory(error)
    }
}

impl<T: Drop> From<AllocFailed<T>> for LexStop {
    ghost from_gives = { λ _ stop. stop ≡ Memory alloc_error };

    fn from(failed: AllocFailed<T>) -> Self {
        LexStop::Memory(AllocError::from(failed))
    }
}
