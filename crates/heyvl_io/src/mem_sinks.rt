ghost use Rattle.std.specs.Prelude.{◌≡◌, ◌⊎◌, ◌+◌, ◌<◌, ◌≤◌, [], ◌++◌, length, take, min, vec_len};
ghost use Rattle.std.specs.Prelude.{vec_capacity, Contains, IfOk, OnErr, IsErr, Some};
ghost use Rattle.heyvl_io.specs.Faults.{Rose, next_count, faults_after};

use crate::{Failed, Sink};
use std::alloc::{AllocError, Global};

/// A sink in memory whose writes fail as a list says.
#[derive(Drop)]
pub struct MemSink {
    /// The bytes that were written.
    pub bytes: Vec<u8>,
    /// The largest number of bytes that one write takes, at least 1.
    pub most: usize,
    /// The numbers of the calls that fail.
    pub fail: Vec<u64>,
    /// The number of the next call, from 0. It stays at its largest value.
    pub calls: u64,
    /// The number of calls that failed. It stays at its largest value.
    pub faults: u64,
    pub ghost takes_some: { 0 < most },
}

impl MemSink {
    /// Returns a sink to which nothing has been written, with memory for `room` bytes. A write
    /// takes at most `most` bytes, and the calls with the numbers in `fail` fail.
    pub fn new(alloc: Global, room: usize, most: usize, fail: Vec<u64>) -> Result<Self, AllocError>
        requires { 0 < most }
        ensures bytes { IfOk result (λ sink. sink.bytes.items ≡ []) }
        ensures room { IfOk result (λ sink. room ≤ vec_capacity sink.bytes) }
        ensures most { IfOk result (λ sink. sink.most ≡ most) }
        ensures fail { IfOk result (λ sink. sink.fail ≡ fail) }
        ensures calls { IfOk result (λ sink. sink.calls ≡ 0) }
        ensures faults { IfOk result (λ sink. sink.faults ≡ 0) }
    {
        Ok(MemSink {
            bytes: Vec::with_capacity(alloc, room)?,
            most,
            fail,
            calls: 0,
            faults: 0,
        })
    }
}

impl Sink for MemSink {
    ghost written = { λ s. Some s.bytes.items };

    ghost faults = { λ s. s.faults };

    /// Fails if the number of the call is in `fail`, or if memory for the bytes runs out. Within
    /// the room of `new` there is memory.
    fn write(&mut self, piece: &[u8]) -> Result<usize, Failed>
        requires { 0 < length piece.now }
        ensures listed { Contains self.old.fail.items self.old.calls → IsErr result }
        ensures refused { IsErr result → Contains self.old.fail.items self.old.calls
            ⊎ (vec_capacity self.old.bytes
            < vec_len self.old.bytes + min (length piece.now) self.old.most) }
        ensures number { IfOk result (λ n. n ≡ min (length piece.now) self.old.most) }
        ensures bytes { IfOk result
            (λ n. self.new.bytes.items ≡ self.old.bytes.items ++ take n piece.now) }
        ensures kept { OnErr result (self.new.bytes.items ≡ self.old.bytes.items) }
        ensures room { vec_capacity self.old.bytes ≤ vec_capacity self.new.bytes }

        ensures most { self.new.most ≡ self.old.most }
        ensures fail { self.new.fail ≡ self.old.fail }
        ensures calls { self.new.calls ≡ next_count self.old.calls }
        ensures faults { self.new.faults ≡ faults_after result self.old.faults }
        ensures failed { OnErr result (Rose self.old.faults self.new.faults) }
    {
        let fails = self.fail.contains(&self.calls);
        self.calls = self.calls.saturating_add(1);
        let count = piece.len().min(self.most);
        if fails || self.bytes.extend_from_slice(&piece[..count]).is_err() {
            self.faults = self.faults.saturating_add(1);
            return Err(Failed);
        }
        Ok(count)
    }
}
