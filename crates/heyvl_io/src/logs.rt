//! The history of a source, for clauses alone.
ghost use Rattle.std.specs.Prelude.{◌≡◌, ◌<◌, List, [], ◌++◌, length};
ghost use Rattle.std.specs.Borrow.{ftrue};
ghost use Rattle.heyvl_io.specs.History.{Start, with_start, with_bytes, since_start};

use std::marker::{Model, PhantomData};

/// The names that a source started, each with the bytes that were read after it. Clauses read them
/// as `history`. They take no memory, and the methods do nothing when they run.
#[derive(Drop)]
pub struct Log {
    marker: PhantomData<u8>,
    pub ghost history: { List Start },
}

impl Model for Log {
    ghost also_owns = { λ _. ftrue };
}

impl Log {
    /// Returns a log without a start.
    pub fn new() -> Log
        ensures { result.history ≡ [] }
    {
        Log {
            marker: PhantomData,
        }
    }

    // Sets the history to a value that the caller chooses in a clause.
    fn set(&mut self, _bytes: &[u8])
        ghost history: { List Start }
        ensures { self.new.history ≡ history }
    {}

    /// Records a start of `name`.
    pub fn start(&mut self, name: &[u8])
        ensures history { self.new.history ≡ with_start self.old.history name.now }
        ensures begun { 0 < length self.new.history }
        ensures none { since_start self.new.history ≡ [] }
    {
        self.set(name);
    }

    /// Records that `bytes` were read.
    pub fn hand_out(&mut self, bytes: &[u8])
        ensures history { self.new.history ≡ with_bytes self.old.history bytes.now }
        ensures starts { length self.new.history ≡ length self.old.history }
        ensures behind { 0 < length self.old.history
            → since_start self.new.history ≡ since_start self.old.history ++ bytes.now }
    {
        self.set(bytes);
    }
}
