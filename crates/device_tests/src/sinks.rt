//! Results of sinks in memory.

use heyvl_io::{Cut, MemSink, write_all};
use std::alloc::{AllocError, Global};
use std::fmt::Write;
use test_lines::{calls_of, cut, size, write_bytes};

fn write_written(written: Result<u64, Cut>, text: &mut String) -> Result<(), AllocError> {
    match written {
        Ok(count) => write!(text, "{count} "),
        Err(Cut { written }) => write!(text, "cut at {written} "),
    }
}

fn act(sink: &mut MemSink, word: &str, text: &mut String) -> Result<(), AllocError> {
    let (act, rest) = cut(word, ':');
    let calls = sink.calls;
    let faults = sink.faults;
    match act {
        "write" => write_written(write_all(sink, rest.as_bytes()), text),
        "calls" => write!(text, "{calls} "),
        "faults" => write!(text, "{faults} "),
        _ => write_bytes(&sink.bytes, text),
    }
}

/// Returns a sink with this room, of which a write takes at most `most` bytes, and these calls
/// fail.
fn sink_of(alloc: Global, room: &str, most: &str, calls: &str) -> Result<MemSink, AllocError> {
    let most = size(most)?;
    if most == 0 {
        return Err(AllocError);
    }
    MemSink::new(alloc, size(room)?, most, calls_of(alloc, calls)?)
}

fn write_acts(sink: &mut MemSink, acts: &str, text: &mut String) -> Result<(), AllocError> {
    for word in acts.split_whitespace() {
        act(sink, word, text)?;
    }
    Ok(())
}

/// `room ; most ; calls ; acts`: writes the results of a sink of which a write takes at most `most`
/// bytes, and these calls fail.
pub fn write_sink(alloc: Global, asked: &str, text: &mut String) -> Result<(), AllocError> {
    let (room, rest) = cut(asked, ';');
    let (most, rest) = cut(rest, ';');
    let (calls, acts) = cut(rest, ';');
    let mut sink = sink_of(alloc, room, most, calls)?;
    write_acts(&mut sink, acts, text)
}
