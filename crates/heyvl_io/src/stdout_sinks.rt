ghost use Rattle.std.specs.Prelude.{◌≡◌, None};

use crate::{Failed, Sink};

/// The standard output. This sink does not report what was written.
#[derive(Drop)]
pub struct StdoutSink<R: Print> {
    runtime: R,
    /// The number of calls that failed or took no byte. It stays at its largest value.
    pub faults: u64,
}

impl<R: Print> StdoutSink<R> {
    /// Returns a sink to which nothing has been written.
    pub fn new(runtime: R) -> Self
        ensures { result.faults ≡ 0 }
    {
        StdoutSink { runtime, faults: 0 }
    }
}

impl<R: Print> Sink for StdoutSink<R> {
    ghost written = { λ _. None };

    ghost faults = { λ s. s.faults };

    fn write(&mut self, piece: &[u8]) -> Result<usize, Failed> {
        match self.runtime.write_some(piece) {
            Ok(count) if count > 0 => Ok(count),
            _ => {
                self.faults = self.faults.saturating_add(1);
                Err(Failed)
            }
        }
    }
}
