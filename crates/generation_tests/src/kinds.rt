//! Questions of lines about the forms of acts.

use crate::form_tests::{write_before_any, write_repeated};
use crate::steps::Step;
use std::alloc::{AllocError, Global};
use std::process::Abort;
use test_lines::{LineKind, cut, differences};

/// The question of a line.
#[derive(Clone, Copy)]
pub enum Kind {
    /// `times most`: the form of so many acts before the post `[b0]`.
    Repeated(Step),
    /// `most`: the form of a flip and a havoc before the post that both variables are the same.
    BeforeAny,
}

impl LineKind for Kind {
    fn write_answer(
        &self,
        alloc: Global,
        asked: &str,
        text: &mut String,
    ) -> Result<(), AllocError> {
        match *self {
            Kind::Repeated(step) => {
                let (times, most) = cut(asked, ' ');
                write_repeated(alloc, step, times, most, text)
            }
            Kind::BeforeAny => write_before_any(alloc, asked.trim(), text),
        }
    }
}

/// Checks each line of a text.
pub fn check_text(
    rt: &(impl Abort + AllocGlobal),
    kind: Kind,
    text: &str,
) -> Result<(), AllocError> {
    let found = differences(rt.alloc(), &kind, &[text])?;
    assert!(rt; found.is_empty(), "{found}");
    Ok(())
}
