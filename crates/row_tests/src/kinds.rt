//! Questions of lines about rows.

use crate::contradiction_tests::write_contradiction;
use crate::elimination_tests::write_elimination;
use crate::guess_tests::write_finding;
use crate::tightening_tests::write_tightened;
use std::alloc::{AllocError, Global};
use std::process::Abort;
use test_lines::{LineKind, differences};

/// The question of a line.
#[derive(Clone, Copy)]
pub enum Kind {
    /// `rows ; types`: the result of elimination.
    Elimination,
    /// `rows`: the proposal before any variable is eliminated.
    Finding,
    /// `rows ; multipliers`: whether they combine the rows to a contradiction.
    Contradiction,
    /// `coefficient of x, of y, constant ; type of x ; <`: the row of a linear value, strict if
    /// there is a `<`.
    Tightening,
}

impl LineKind for Kind {
    fn write_answer(
        &self,
        alloc: Global,
        asked: &str,
        text: &mut String,
    ) -> Result<(), AllocError> {
        match self {
            Kind::Elimination => write_elimination(alloc, asked, text),
            Kind::Finding => write_finding(alloc, asked, text),
            Kind::Contradiction => write_contradiction(alloc, asked, text),
            Kind::Tightening => write_tightened(alloc, asked, text),
        }
    }
}

/// Checks each line of each text.
pub fn check_texts(
    rt: &(impl Abort + AllocGlobal),
    kind: Kind,
    texts: &[&str],
) -> Result<(), AllocError> {
    let found = differences(rt.alloc(), &kind, texts)?;
    assert!(rt; found.is_empty(), "{found}");
    Ok(())
}
