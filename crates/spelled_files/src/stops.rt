//! Errors of reading a file.

ghost use Rattle.spelled_files.specs.declared.stops.SourceStop.TheVariants.{Memory};
ghost use Rattle.std.specs.Prelude.{◌≡◌};

use heyvl_places::Span;
use std::alloc::AllocError;
use thiserror::Error;

/// Why bytes are refused as a file.
#[derive(Clone, Copy, Debug, Error)]
pub enum SourceStop {
    /// The file has the error of this number, at this place.
    #[error("fault {0}")]
    Fault(u8, Span),
    /// Memory ran out.
    #[error("out of memory")]
    Memory(AllocError),
}

impl From<AllocError> for SourceStop {
    ghost from_gives = { λ error stop. stop ≡ Memory error };

    fn from(error: AllocError) -> Self {
        SourceStop::Memory(error)
    }
}
