ghost use Rattle.std.specs.Prelude.{◌≡◌, ◌<◌, ◌≤◌, List, ℕ, Option, length, take, IfOk, OnOk};
ghost use Rattle.std.specs.Prelude.{OnErr};
ghost use Rattle.heyvl_io.specs.Bytes.{HandsOut, IsUsedUp};
ghost use Rattle.heyvl_io.specs.Faults.{Rose};
ghost use Rattle.heyvl_io.specs.History.{Start, with_start, with_bytes};
ghost use Rattle.heyvl_io.specs.Order.{Order, order_after};

use crate::Failed;

/// A source of named texts, of which one at a time is read from its first byte to its last.
///
/// What a source reports does not change: a call changes neither its names nor their bytes, and
/// `order` is reported either always or never.
pub trait Source {
    /// The names of the source, in the order to which `order` refers.
    ghost names: { Self → List (List ℕ) };

    /// The bytes of a name, if the source reports them.
    ghost holds: { Self → List ℕ → Option (List ℕ) };

    /// The bytes of the started name that are not read yet, if the source reports them.
    ghost left: { Self → Option (List ℕ) };

    /// The order in which names were started, if the source reports it.
    ghost order: { Self → Order };

    /// The names that were started so far, the oldest first, each with the bytes that were read
    /// after it.
    ghost history: { Self → List Start };

    /// The number of failures. A counter stays at its largest value.
    ghost faults: { Self → ℕ };

    /// Starts to read a name.
    ///
    /// # Errors
    ///
    /// If it fails, no bytes are left to read.
    fn start(&mut self, name: &str) -> Result<(), Failed>
        ensures left { OnOk result (left self.new ≡ holds self.old name.now) }
        ensures nothing { OnErr result (IsUsedUp (left self.new)) }
        ensures history { history self.new ≡ with_start (history self.old) name.now }
        ensures order { order self.new ≡ order_after (names self.old) name.now (order self.old) }
        ensures names { names self.new ≡ names self.old }
        ensures holds { holds self.new ≡ holds self.old }
        ensures count { faults self.old ≤ faults self.new }
        ensures failed { OnErr result (Rose (faults self.old) (faults self.new)) };

    /// Copies some of the bytes that are left to the start of `into`, and returns their number. It
    /// is 0 only if no bytes are left, or before the first start.
    fn read(&mut self, into: &mut [u8]) -> Result<usize, Failed>
        requires { 0 < length into.old }
        ensures fits { IfOk result (λ n. n ≤ length into.old) }
        ensures bytes { IfOk result (λ n. HandsOut (left self.old) (left self.new) into.new n) }
        ensures kept { OnErr result (left self.new ≡ left self.old) }
        ensures history { IfOk result
            (λ n. history self.new ≡ with_bytes (history self.old) (take n into.new)) }
        ensures history_kept { OnErr result (history self.new ≡ history self.old) }
        ensures begun { IfOk result (λ n. 0 < n → 0 < length (history self.old)) }
        ensures order { order self.new ≡ order self.old }
        ensures names { names self.new ≡ names self.old }
        ensures holds { holds self.new ≡ holds self.old }
        ensures count { faults self.old ≤ faults self.new }
        ensures failed { OnErr result (Rose (faults self.old) (faults self.new)) };
}
