ghost use Rattle.std.specs.Prelude.{◌≡◌, ◌<◌, [], length, None, IsSome};
ghost use Rattle.heyvl_io.specs.Order.{untold};

use crate::{Failed, Log, Source};
use std::fs;
use std::io::Read;
use std::rt::Files;

/// The files of the system, by their paths. This source reports neither their bytes nor the order
/// of starts.
#[derive(Drop)]
pub struct FileSource<R: Files> {
    runtime: R,
    file: Option<R::File>,
    /// The number of calls that failed. It stays at its largest value.
    pub faults: u64,
    log: Log,
    pub ghost begun: { IsSome file → 0 < length log.history },
}

impl<R: Files> FileSource<R> {
    /// Returns a source of which nothing has been read.
    pub fn new(runtime: R) -> Self
        ensures faults { result.faults ≡ 0 }
        ensures history { result.log.history ≡ [] }
    {
        FileSource {
            runtime,
            file: None,
            faults: 0,
            log: Log::new(),
        }
    }
}

impl<R: Files> Source for FileSource<R> {
    ghost names = { λ _. [] };

    ghost holds = { λ _ _. None };

    ghost left = { λ _. None };

    ghost order = { λ _. untold };

    ghost history = { λ s. s.log.history };

    ghost faults = { λ s. s.faults };

    fn start(&mut self, name: &str) -> Result<(), Failed> {
        self.log.start(name.as_bytes());
        match fs::open(&self.runtime, name) {
            Ok(file) => {
                self.file = Some(file);
                Ok(())
            }
            Err(_) => {
                self.file = None;
                self.faults = self.faults.saturating_add(1);
                Err(Failed)
            }
        }
    }

    fn read(&mut self, into: &mut [u8]) -> Result<usize, Failed> {
        let file = match &mut self.file {
            Some(file) => file,
            None => return Ok(0),
        };
        match file.read(into) {
            Ok(count) => {
                self.log.hand_out(&into[..count]);
                Ok(count)
            }
            Err(_) => {
                self.faults = self.faults.saturating_add(1);
                Err(Failed)
            }
        }
    }
}
