//! Questions of lines about devices in memory.

use crate::sinks::write_sink;
use crate::sources::{write_source, write_sure_source};
use std::alloc::{AllocError, Global};
use std::process::Abort;
use test_lines::{LineKind, differences};

/// The question of a line.
#[derive(Clone, Copy)]
pub enum Kind {
    /// `files ; most ; calls ; acts`: the results of a source in memory.
    Source,
    /// `files ; most ; names`: the bytes read from a source that never fails.
    SureSource,
    /// `room ; most ; calls ; acts`: the results of a sink in memory.
    Sink,
}

impl LineKind for Kind {
    fn write_answer(
        &self,
        alloc: Global,
        asked: &str,
        text: &mut String,
    ) -> Result<(), AllocError> {
        match self {
            Kind::Source => write_source(alloc, asked, text),
            Kind::SureSource => write_sure_source(alloc, asked, text),
            Kind::Sink => write_sink(alloc, asked, text),
        }
    }
}

/// Checks each line of each text.
pub fn check_texts(
    rt: &(impl Abort + AllocGlobal),
    kind: Kind,
    texts: &[&str],
) -> Result<(), AllocError> {
    let found = differences(rt.alloc(), &kind, texts)?;
    assert!(rt; found.is_empty(), "{found}");
    Ok(())
}
