ghost use Rattle.std.specs.Prelude.{◌≡◌, ◌+◌, ◌<◌, ◌≤◌, [], length, take, min, unwrap_or, IfOk};
ghost use Rattle.std.specs.Prelude.{IsOk, IsSome, Some, None};
ghost use Rattle.heyvl_io.specs.Bytes.{HandsOut};
ghost use Rattle.heyvl_io.specs.Files.{text_names, held_bytes, started_bytes, rest_at};
ghost use Rattle.heyvl_io.specs.History.{with_start, with_bytes};
ghost use Rattle.heyvl_io.specs.Order.{untold};

use crate::files::{bytes_at, copy_front, place_of};
use crate::{Failed, Log, Source};

/// A source of named texts in memory whose calls do not fail. A name that does not exist has no
/// bytes. Of equal names the first counts.
#[derive(Drop)]
pub struct SureSource {
    /// The names and their bytes.
    pub files: Vec<(String, Vec<u8>)>,
    /// The largest number of bytes that one read returns, at least 1.
    pub most: usize,
    /// The place of the started name among the files.
    pub started: Option<usize>,
    /// The number of its bytes that have been read.
    pub place: usize,
    /// The history of the source.
    pub log: Log,
    pub ghost gives_some: { 0 < most },
    pub ghost within: { place ≤ length (started_bytes files.items started) },
    pub ghost begun: { IsSome started → 0 < length log.history },
}

impl SureSource {
    /// Returns a source of which nothing has been read. A read returns at most `most` bytes.
    pub fn new(files: Vec<(String, Vec<u8>)>, most: usize) -> Self
        requires { 0 < most }
        ensures files { result.files ≡ files }
        ensures most { result.most ≡ most }
        ensures started { result.started ≡ None }
        ensures place { result.place ≡ 0 }
        ensures history { result.log.history ≡ [] }
    {
        SureSource {
            files,
            most,
            started: None,
            place: 0,
            log: Log::new(),
        }
    }
}

impl Source for SureSource {
    ghost names = { λ s. text_names s.files.items };

    ghost holds = { λ s name. Some (unwrap_or (held_bytes s.files.items name) []) };

    ghost left = { λ s. Some (rest_at s.files.items s.started s.place) };

    ghost order = { λ _. untold };

    ghost history = { λ s. s.log.history };

    ghost faults = { λ _. 0 };

    #[tactic(auto, using(crate::proofs::Held::held_at))]
    fn start(&mut self, name: &str) -> Result<(), Failed>
        ensures ok { IsOk result }
        ensures left { rest_at self.new.files.items self.new.started self.new.place
            ≡ unwrap_or (held_bytes self.old.files.items name.now) [] }
        ensures place { self.new.place ≡ 0 }
        ensures history { self.new.log.history ≡ with_start self.old.log.history name.now }

        ensures files { self.new.files ≡ self.old.files }
        ensures most { self.new.most ≡ self.old.most }
    {
        self.log.start(name.as_bytes());
        self.place = 0;
        self.started = place_of(&self.files, name);
        Ok(())
    }

    fn read(&mut self, into: &mut [u8]) -> Result<usize, Failed>
        requires { 0 < length into.old }
        ensures ok { IsOk result }
        ensures number { IfOk result (λ n. n ≡ min (min
            (length (rest_at self.old.files.items self.old.started self.old.place))
            (length into.old)) self.old.most) }
        ensures bytes { IfOk result (λ n. HandsOut
            (Some (rest_at self.old.files.items self.old.started self.old.place))
            (Some (rest_at self.new.files.items self.new.started self.new.place)) into.new n) }
        ensures place { IfOk result (λ n. self.new.place ≡ self.old.place + n) }
        ensures history { IfOk result
            (λ n. self.new.log.history ≡ with_bytes self.old.log.history (take n into.new)) }
        ensures begun { IfOk result (λ n. 0 < n → 0 < length self.old.log.history) }

        ensures started { self.new.started ≡ self.old.started }
        ensures files { self.new.files ≡ self.old.files }
        ensures most { self.new.most ≡ self.old.most }
    {
        let bytes = bytes_at(&self.files, self.started);
        let count = copy_front(&bytes[self.place..], into, self.most);
        self.place += count;
        self.log.hand_out(&into[..count]);
        Ok(count)
    }
}
