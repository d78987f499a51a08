//! Why tokens are not read or translated as a program of guarded commands.

ghost use Rattle.guarded_commands.specs.declared.stops.PgclStop.TheVariants.{Memory};
ghost use Rattle.std.specs.Prelude.{◌≡◌};

use std::alloc::AllocError;
use thiserror::Error;

/// The error of tokens that have to spell a program.
#[derive(Debug, Drop, Error)]
pub enum PgclStop {
    /// The first error of the tokens: its number and the index of its token. It is 5 at the first
    /// token after which the load exceeds 200, otherwise 30 at the first token with which no
    /// program goes on, or at the number of tokens if they end too early, and in translation 31 at
    /// the first reserved name.
    #[error("fault {0} at the token {1}")]
    Fault(u8, u32),
    /// Memory ran out.
    #[error("out of memory")]
    Memory(AllocError),
}

impl From<AllocError> for PgclStop {
    ghost from_gives = { λ error stop. stop ≡ Memory error };

    fn from(error: AllocError) -> Self {
        PgclStop::Memory(error)
    }
}
