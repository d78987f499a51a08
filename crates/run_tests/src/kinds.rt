//! Questions of lines about `run`.

use crate::runs::{write_failure, write_run};
use std::alloc::{AllocError, Global};
use std::process::Abort;
use test_lines::{LineKind, differences};

/// The question of a line.
#[derive(Clone, Copy)]
pub enum Kind {
    /// `file ; procedure ; script`: the result of its run.
    Run,
    /// `calls`: the result of a run of the coin if these calls of the source fail.
    Failure,
}

impl LineKind for Kind {
    fn write_answer(
        &self,
        alloc: Global,
        asked: &str,
        text: &mut String,
    ) -> Result<(), AllocError> {
        match self {
            Kind::Run => write_run(alloc, asked, text),
            Kind::Failure => write_failure(alloc, asked, text),
        }
    }
}

/// Checks each line of each text.
pub fn check_texts(
    rt: &(impl Abort + AllocGlobal),
    kind: Kind,
    texts: &[&str],
) -> Result<(), AllocError> {
    let found = differences(rt.alloc(), &kind, texts)?;
    assert!(rt; found.is_empty(), "{found}");
    Ok(())
}
