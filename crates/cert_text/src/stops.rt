//! Errors of reading certificates.

ghost use Rattle.std.specs.Prelude.{◌≡◌, alloc_error};
ghost use Rattle.cert_text.specs.declared.stops.CertStop.TheVariants.{Memory};

use std::alloc::{AllocError, AllocFailed};
use thiserror::Error;

/// Why a text yields no list of certificates.
#[derive(Debug, Drop, Error)]
pub enum CertStop {
    /// No list of certificates has this text. The number is that of the first line, from 1, that no
    /// list has after the lines before it.
    #[error("line {0} is at fault")]
    Fault(u32),
    /// Memory ran out.
    #[error("out of memory")]
    Memory(AllocError),
}

impl From<AllocError> for CertStop {
    ghost from_gives = { λ error stop. stop ≡ Memory error };

    fn from(error: AllocError) -> Self {
        CertStop::Memory(error)
    }
}

impl<T: Drop> From<AllocFailed<T>> for CertStop {
    ghost from_gives = { λ _ stop. stop ≡ Memory alloc_error };

    fn from(failed: AllocFailed<T>) -> Self {
        CertStop::Memory(AllocError::from(failed))
    }
}
