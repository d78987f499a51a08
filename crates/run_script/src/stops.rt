//! Errors of reading scripts.

ghost use Rattle.run_script.specs.declared.stops.ScriptStop.TheVariants.{Memory};
ghost use Rattle.std.specs.Prelude.{◌≡◌};

use std::alloc::AllocError;
use thiserror::Error;

/// Why a text yields no script.
#[derive(Debug, Drop, Error)]
pub enum ScriptStop {
    /// No script has this text. The number is that of the first line, from 1, that no script has
    /// after the lines before it.
    #[error("line {0} is at fault")]
    Fault(u32),
    /// Memory ran out.
    #[error("out of memory")]
    Memory(AllocError),
}

impl From<AllocError> for ScriptStop {
    ghost from_gives = { λ error stop. stop ≡ Memory error };

    fn from(error: AllocError) -> Self {
        ScriptStop::Memory(error)
    }
}
