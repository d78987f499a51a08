ghost use Rattle.std.specs.Prelude.{◌≡◌, ◌<◌, ◌≤◌, List, ℕ, Option, length, take, IfOk, OnErr};
ghost use Rattle.heyvl_io.specs.Bytes.{with_appended};
ghost use Rattle.heyvl_io.specs.Faults.{Rose};

use crate::Failed;

/// A device to which bytes are written, one after another.
pub trait Sink {
    /// The bytes that were written, if the sink reports them. A sink reports them either always or
    /// never.
    ghost written: { Self → Option (List ℕ) };

    /// The number of failures. A counter stays at its largest value.
    ghost faults: { Self → ℕ };

    /// Writes at least one byte from the start of `piece`, and returns the number of bytes written.
    ///
    /// # Errors
    ///
    /// If it fails, it has written nothing of `piece`.
    fn write(&mut self, piece: &[u8]) -> Result<usize, Failed>
        requires { 0 < length piece.now }
        ensures some { IfOk result (λ n. 0 < n) }
        ensures fits { IfOk result (λ n. n ≤ length piece.now) }
        ensures front { IfOk result
            (λ n. written self.new ≡ with_appended (written self.old) (take n piece.now)) }
        ensures kept { OnErr result (written self.new ≡ written self.old) }
        ensures count { faults self.old ≤ faults self.new }
        ensures failed { OnErr result (Rose (faults self.old) (faults self.new)) };
}
