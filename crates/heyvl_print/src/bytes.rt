//! Appending bytes to a text.

ghost use Rattle.std.specs.Prelude.{◌++◌, ◌≡◌, OnOk, replicate};

use std::alloc::AllocError;

/// The largest number of bytes that are appended one by one.
const FEW: usize = 4;

/// Appends `bytes` to `text`.
pub(crate) fn write(text: &mut Vec<u8>, bytes: &[u8]) -> Result<(), AllocError>
    ensures { OnOk result (text.new.items ≡ text.old.items ++ bytes.now) }
{
    Ok(text.extend_from_slice(bytes)?)
}

/// Appends `count` times `byte` to `text`: up to `FEW` one by one, more at once. The room is
/// reserved first, so that the new length is in range.
pub(crate) fn write_repeated(text: &mut Vec<u8>, byte: u8, count: usize) -> Result<(), AllocError>
    ensures { OnOk result (text.new.items ≡ text.old.items ++ replicate count byte) }
{
    if count > FEW {
        text.reserve(count)?;
        let _room = text.capacity();
        let length = text.len() + count;
        return Ok(text.resize(length, byte)?);
    }
    for written in 0..count {
        text.push(byte)?;
    }
    Ok(())
}
