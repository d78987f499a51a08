//! Arguments of the command line.

ghost use Rattle.std.specs.Prelude.{IfOk, List, string_bytes, ◌≡◌, ℕ};

use std::alloc::{AllocError, Global};
use std::marker::Model;

/// An argument of the command line.
#[derive(Drop)]
pub struct Word {
    text: String,
}

impl Model for Word {
    ghost Value = { List ℕ };

    ghost view = { λ word. string_bytes word.text };
}

impl Word {
    /// Returns the argument with this text.
    pub fn new(alloc: Global, text: &str) -> Result<Word, AllocError>
        ensures { IfOk result (λ word. word ≡ text.now) }
    {
        Ok(Word {
            text: String::from_str(alloc, text)?,
        })
    }

    /// Returns the text of the argument.
    pub fn as_str(&self) -> &str
        ensures { result.now ≡ self.now }
    {
        self.text.as_str()
    }
}
