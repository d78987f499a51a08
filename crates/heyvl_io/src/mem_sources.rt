ghost use Rattle.std.specs.Prelude.{◌≡◌, ◌⊎◌, ◌+◌, ◌<◌, ◌≤◌, ◌↔◌, [], length, take, min, Contains};
ghost use Rattle.std.specs.Prelude.{IfOk, OnErr, OnOk, IsErr, IsSome, Some, None};
ghost use Rattle.heyvl_io.specs.Bytes.{HandsOut};
ghost use Rattle.heyvl_io.specs.Faults.{Rose, next_count, faults_after};
ghost use Rattle.heyvl_io.specs.Files.{text_names, held_bytes, started_bytes, rest_at};
ghost use Rattle.heyvl_io.specs.Files.{numbered_order};
ghost use Rattle.heyvl_io.specs.History.{with_start, with_bytes};
ghost use Rattle.heyvl_io.specs.Order.{order_after};

use crate::files::{bytes_at, copy_front, next_order, place_of};
use crate::{Failed, Log, Source};

/// A source of named texts in memory whose calls fail as a list says. Of equal names the first
/// counts.
#[derive(Drop)]
pub struct MemSource {
    /// The names and their bytes.
    pub files: Vec<(String, Vec<u8>)>,
    /// The largest number of bytes that one read returns, at least 1.
    pub most: usize,
    /// The numbers of the calls that fail.
    pub fail: Vec<u64>,
    /// The number of the next call, from 0, over starts and reads. It stays at its largest value.
    pub calls: u64,
    /// The number of calls that failed. It stays at its largest value.
    pub faults: u64,
    /// The place of the started name among the files.
    pub started: Option<usize>,
    /// The number of its bytes that have been read.
    pub place: usize,
    /// The number of starts, if they were of the first names in their order and once each;
    /// otherwise `None`.
    pub order: Option<usize>,
    /// The history of the source.
    pub log: Log,
    pub ghost gives_some: { 0 < most },
    pub ghost within: { place ≤ length (started_bytes files.items started) },
    pub ghost begun: { IsSome started → 0 < length log.history },
}

impl MemSource {
    /// Returns a source of which nothing has been read. A read returns at most `most` bytes, and
    /// the calls with the numbers in `fail` fail.
    pub fn new(files: Vec<(String, Vec<u8>)>, most: usize, fail: Vec<u64>) -> Self
        requires { 0 < most }
        ensures files { result.files ≡ files }
        ensures most { result.most ≡ most }
        ensures fail { result.fail ≡ fail }
        ensures calls { result.calls ≡ 0 }
        ensures faults { result.faults ≡ 0 }
        ensures started { result.started ≡ None }
        ensures place { result.place ≡ 0 }
        ensures order { result.order ≡ Some 0 }
        ensures history { result.log.history ≡ [] }
    {
        MemSource {
            files,
            most,
            fail,
            calls: 0,
            faults: 0,
            started: None,
            place: 0,
            order: Some(0),
            log: Log::new(),
        }
    }
}

impl Source for MemSource {
    ghost names = { λ s. text_names s.files.items };

    ghost holds = { λ s. held_bytes s.files.items };

    ghost left = { λ s. Some (rest_at s.files.items s.started s.place) };

    ghost order = { λ s. numbered_order s.order };

    ghost history = { λ s. s.log.history };

    ghost faults = { λ s. s.faults };

    /// Fails if the number of the call is in `fail`, or if there is no such name.
    #[tactic(auto, using(crate::proofs::Held::held_at))]
    fn start(&mut self, name: &str) -> Result<(), Failed>
        ensures fails { IsErr result ↔
            (Contains self.old.fail.items self.old.calls
            ⊎ (held_bytes self.old.files.items name.now ≡ None)) }
        ensures left { OnOk result
            (Some (rest_at self.new.files.items self.new.started self.new.place)
            ≡ held_bytes self.old.files.items name.now) }
        ensures nothing { OnErr result (self.new.started ≡ None) }
        ensures place { self.new.place ≡ 0 }
        ensures order { numbered_order self.new.order
            ≡ order_after (text_names self.old.files.items) name.now
            (numbered_order self.old.order) }
        ensures history { self.new.log.history ≡ with_start self.old.log.history name.now }

        ensures files { self.new.files ≡ self.old.files }
        ensures most { self.new.most ≡ self.old.most }
        ensures fail { self.new.fail ≡ self.old.fail }
        ensures calls { self.new.calls ≡ next_count self.old.calls }
        ensures faults { self.new.faults ≡ faults_after result self.old.faults }
        ensures failed { OnErr result (Rose self.old.faults self.new.faults) }
    {
        let fails = self.fail.contains(&self.calls);
        self.calls = self.calls.saturating_add(1);
        self.log.start(name.as_bytes());
        self.order = next_order(&self.files, self.order, name);
        self.place = 0;
        self.started = place_of(&self.files, name);
        if fails || self.started.is_none() {
            self.started = None;
            self.faults = self.faults.saturating_add(1);
            return Err(Failed);
        }
        Ok(())
    }

    /// Fails if the number of the call is in `fail`.
    fn read(&mut self, into: &mut [u8]) -> Result<usize, Failed>
        requires { 0 < length into.old }
        ensures fails { IsErr result ↔ Contains self.old.fail.items self.old.calls }
        ensures number { IfOk result (λ n. n ≡ min (min
            (length (rest_at self.old.files.items self.old.started self.old.place))
            (length into.old)) self.old.most) }
        ensures bytes { IfOk result (λ n. HandsOut
            (Some (rest_at self.old.files.items self.old.started self.old.place))
            (Some (rest_at self.new.files.items self.new.started self.new.place)) into.new n) }
        ensures place { IfOk result (λ n. self.new.place ≡ self.old.place + n) }
        ensures kept { OnErr result (self.new.place ≡ self.old.place) }
        ensures started { self.new.started ≡ self.old.started }
        ensures order { self.new.order ≡ self.old.order }
        ensures history { IfOk result
            (λ n. self.new.log.history ≡ with_bytes self.old.log.history (take n into.new)) }
        ensures history_kept { OnErr result (self.new.log.history ≡ self.old.log.history) }
        ensures begun { IfOk result (λ n. 0 < n → 0 < length self.old.log.history) }

        ensures files { self.new.files ≡ self.old.files }
        ensures most { self.new.most ≡ self.old.most }
        ensures fail { self.new.fail ≡ self.old.fail }
        ensures calls { self.new.calls ≡ next_count self.old.calls }
        ensures faults { self.new.faults ≡ faults_after result self.old.faults }
        ensures failed { OnErr result (Rose self.old.faults self.new.faults) }
    {
        let fails = self.fail.contains(&self.calls);
        self.calls = self.calls.saturating_add(1);
        if fails {
            self.faults = self.faults.saturating_add(1);
            return Err(Failed);
        }
        let bytes = bytes_at(&self.files, self.started);
        let count = copy_front(&bytes[self.place..], into, self.most);
        self.place += count;
        self.log.hand_out(&into[..count]);
        Ok(count)
    }
}
