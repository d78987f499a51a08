ghost use Rattle.std.specs.Prelude.{◌≡◌, ◌+◌, ◌<◌, ◌≤◌, ◌↔◌, [], ◌∷◌, ◌++◌, length, vec_len, IfOk};
ghost use Rattle.std.specs.Prelude.{IfSome, IsErrOf};
ghost use Rattle.heyvl_io.specs.Faults.{Rose};
ghost use Rattle.heyvl_io.specs.History.{handed_out, since_start, IsTaken};
ghost use Rattle.heyvl_io.specs.Order.{order_after};
ghost use Rattle.heyvl_io.specs.declared.reader.ReadStop.TheVariants.{Failed, Memory};

use crate::{Failed, Source};
use std::alloc::{AllocError, Global};
use thiserror::Error;

/// Why a name was not read to its end.
#[derive(Clone, Copy, Debug, PartialEq, Eq, Error)]
pub enum ReadStop {
    /// The source failed.
    #[error("the source failed")]
    Failed,
    /// The name has more bytes than the limit.
    #[error("more bytes than the limit")]
    TooLong,
    /// Memory for the bytes ran out.
    #[error("out of memory")]
    Memory(AllocError),
}

impl From<Failed> for ReadStop {
    ghost from_gives = { λ _ stop. stop ≡ Failed };

    fn from(_: Failed) -> Self {
        ReadStop::Failed
    }
}

impl From<AllocError> for ReadStop {
    ghost from_gives = { λ error stop. stop ≡ Memory error };

    fn from(error: AllocError) -> Self {
        ReadStop::Memory(error)
    }
}

// The largest number of bytes that one read asks for.
const PIECE: usize = 4096;

/// Reads all bytes of `name`. Starts this name once, and no other.
///
/// # Errors
///
/// - `Failed`: the source failed.
/// - `TooLong`: there are more than `limit` bytes; `limit` + 1 of them were read.
/// - `Memory`: memory ran out.
pub fn read_all<F: Source>(
    alloc: Global,
    source: &mut F,
    name: &str,
    limit: usize,
) -> Result<Vec<u8>, ReadStop>
    ensures bytes { IfOk result
        (λ bytes. IfSome (F.holds source.old name.now) (λ held. bytes.items ≡ held)) }
    ensures within { IfOk result (λ bytes. vec_len bytes ≤ limit) }
    ensures returned { IfOk result
        (λ bytes. F.history source.new ≡ F.history source.old ++ handed_out name.now bytes.items
        ∷ []) }

    ensures failed { IsErrOf result ReadStop.Failed
        → Rose (F.faults source.old) (F.faults source.new) }
    ensures too_long { IsErrOf result ReadStop.TooLong
        ↔ (length (since_start (F.history source.new)) ≡ limit + 1) }
    ensures longer { IsErrOf result ReadStop.TooLong
        → IfSome (F.holds source.old name.now) (λ held. limit < length held) }

    ensures history { IsTaken (F.history source.old) (F.history source.new) name.now (limit + 1) }
    ensures order { F.order source.new
        ≡ order_after (F.names source.old) name.now (F.order source.old) }
    ensures names { F.names source.new ≡ F.names source.old }
    ensures holds { F.holds source.new ≡ F.holds source.old }
    ensures count { F.faults source.old ≤ F.faults source.new }
{
    source.start(name)?;
    let mut bytes = Vec::new(alloc);
    let mut piece = [0u8; PIECE];
    loop {
        let room = limit - bytes.len();
        let end = if room < PIECE { room + 1 } else { PIECE };
        let into = &mut piece[..end];
        let count = source.read(into)?;
        if count == 0 {
            return Ok(bytes);
        }
        if count > room {
            return Err(ReadStop::TooLong);
        }
        bytes.extend_from_slice(&into[..count])?;
    }
}
