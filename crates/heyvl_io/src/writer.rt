ghost use Rattle.std.specs.Prelude.{◌≡◌, ◌<◌, ◌≤◌, length, take, IfOk, IfErr, OnOk, OnErr};
ghost use Rattle.heyvl_io.specs.Bytes.{with_appended};
ghost use Rattle.heyvl_io.specs.Faults.{Rose};

use crate::Sink;

/// The failure of a sink after the first `written` bytes.
#[derive(Clone, Copy, Debug, PartialEq, Eq)]
pub struct Cut {
    /// The number of bytes that were written.
    pub written: u64,
}

/// Writes all bytes, and returns their number.
///
/// # Errors
///
/// If the sink fails, `Cut` has the number of bytes that were written before.
pub fn write_all<K: Sink>(sink: &mut K, bytes: &[u8]) -> Result<u64, Cut>
    ensures all { IfOk result (λ n. n ≡ length bytes.now) }
    ensures appended { OnOk result
        (K.written sink.new ≡ with_appended (K.written sink.old) bytes.now) }

    ensures cut { IfErr result (λ cut. cut.written < length bytes.now) }
    ensures front { IfErr result (λ cut.
        K.written sink.new ≡ with_appended (K.written sink.old) (take cut.written bytes.now)) }
    ensures failed { OnErr result (Rose (K.faults sink.old) (K.faults sink.new)) }
    ensures count { K.faults sink.old ≤ K.faults sink.new }
{
    let mut done = 0usize;
    while done < bytes.len() {
        match sink.write(&bytes[done..]) {
            Ok(count) => done += count,
            Err(_) => {
                return Err(Cut {
                    written: done as u64,
                });
            }
        }
    }
    Ok(done as u64)
}
