//! Questions of lines about `run_tool`.

use crate::calls::{write_asked, write_call};
use std::alloc::{AllocError, Global};
use std::process::Abort;
use test_lines::{LineKind, differences};

/// The question of a line.
#[derive(Clone, Copy)]
pub enum Kind {
    /// `words ; file ; most ; calls ; most ; calls`: the outcome of a call.
    Call,
    /// `words`: the command that these arguments ask for.
    Words,
}

impl LineKind for Kind {
    fn write_answer(
        &self,
        alloc: Global,
        asked: &str,
        text: &mut String,
    ) -> Result<(), AllocError> {
        match self {
            Kind::Call => write_call(alloc, asked, text),
            Kind::Words => write_asked(alloc, asked, text),
        }
    }
}

/// Checks each line of each text.
pub fn check_texts(
    rt: &(impl Abort + AllocGlobal),
    kind: Kind,
    texts: &[&str],
) -> Result<(), AllocError> {
    let found = differences(rt.alloc(), &kind, texts)?;
    assert!(rt; found.is_empty(), "{found}");
    Ok(())
}
