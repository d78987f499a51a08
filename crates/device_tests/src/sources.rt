//! Results of sources in memory.

use heyvl_io::{Failed, MemSource, ReadStop, Source, SureSource, read_all};
use std::alloc::{AllocError, Global};
use std::fmt::Write;
use test_lines::{calls_of, cut, size, write_bytes};

/// Reads a name with its text, such as `a=1`.
fn file_of(alloc: Global, word: &str) -> Result<(String, Vec<u8>), AllocError> {
    let (name, bytes) = cut(word, '=');
    let name = String::from_str(alloc, name)?;
    Ok((name, Vec::from_slice(alloc, bytes.as_bytes())?))
}

/// Reads names with their texts, such as `a=1 b=2`.
fn files_of(alloc: Global, text: &str) -> Result<Vec<(String, Vec<u8>)>, AllocError> {
    let mut files = Vec::new(alloc);
    for word in text.split_whitespace() {
        files.push(file_of(alloc, word)?)?;
    }
    Ok(files)
}

fn write_start(started: Result<(), Failed>, text: &mut String) -> Result<(), AllocError> {
    text.push_str(if started.is_ok() {
        "started "
    } else {
        "failed "
    })
}

/// Reads at most `most` bytes, from 1 to 8.
fn write_read(source: &mut MemSource, most: usize, text: &mut String) -> Result<(), AllocError> {
    let mut buffer = [0u8; 8];
    if most == 0 || most > 8 {
        return Err(AllocError);
    }
    match source.read(&mut buffer[..most]) {
        Ok(count) => write_bytes(buffer.get(..count).unwrap_or(b"?"), text),
        Err(_) => text.push_str("failed "),
    }
}

fn write_all_read(read: &Result<Vec<u8>, ReadStop>, text: &mut String) -> Result<(), AllocError> {
    match read {
        Ok(bytes) => write_bytes(bytes, text),
        Err(stop) => write!(text, "{stop} "),
    }
}

/// Reads all bytes of a name up to a limit, such as `f:5`.
fn read_up_to<F: Source>(
    alloc: Global,
    source: &mut F,
    word: &str,
    text: &mut String,
) -> Result<(), AllocError> {
    let (name, limit) = cut(word, ':');
    write_all_read(&read_all(alloc, source, name, size(limit)?), text)
}

/// Writes the part of the source's state that `word` names.
fn write_state(source: &MemSource, word: &str, text: &mut String) -> Result<(), AllocError> {
    let order = source.order;
    let number = match word {
        "place" => source.place as u64,
        "calls" => source.calls,
        "faults" => source.faults,
        _ => return write!(text, "{order:?} "),
    };
    write!(text, "{number} ")
}

/// Sets the counters to their largest value and to the one before it.
fn count_far(source: &mut MemSource) {
    source.calls = u64::MAX;
    source.faults = u64::MAX - 1;
}

fn act(
    alloc: Global,
    source: &mut MemSource,
    word: &str,
    text: &mut String,
) -> Result<(), AllocError> {
    let (act, rest) = cut(word, ':');
    match act {
        "start" => write_start(source.start(rest), text),
        "read" => write_read(source, size(rest)?, text),
        "all" => read_up_to(alloc, source, rest, text),
        "far" => {
            count_far(source);
            Ok(())
        }
        _ => write_state(source, word, text),
    }
}

/// Returns a source of these files, of which a read returns at most `most` bytes, and these calls
/// fail.
fn source_of(alloc: Global, files: &str, most: &str, calls: &str) -> Result<MemSource, AllocError> {
    let most = size(most)?;
    if most == 0 {
        return Err(AllocError);
    }
    let files = files_of(alloc, files)?;
    Ok(MemSource::new(files, most, calls_of(alloc, calls)?))
}

fn write_acts(
    alloc: Global,
    source: &mut MemSource,
    acts: &str,
    text: &mut String,
) -> Result<(), AllocError> {
    for word in acts.split_whitespace() {
        act(alloc, source, word, text)?;
    }
    Ok(())
}

/// `files ; most ; calls ; acts`: writes the results of a source of these files, of which a read
/// returns at most `most` bytes, and these calls fail.
pub fn write_source(alloc: Global, asked: &str, text: &mut String) -> Result<(), AllocError> {
    let (files, rest) = cut(asked, ';');
    let (most, rest) = cut(rest, ';');
    let (calls, acts) = cut(rest, ';');
    let mut source = source_of(alloc, files, most, calls)?;
    write_acts(alloc, &mut source, acts, text)
}

/// Returns a source of these files that never fails, of which a read returns at most `most` bytes.
fn sure_source_of(alloc: Global, files: &str, most: &str) -> Result<SureSource, AllocError> {
    let most = size(most)?;
    if most == 0 {
        return Err(AllocError);
    }
    Ok(SureSource::new(files_of(alloc, files)?, most))
}

/// `files ; most ; names`: writes the bytes read from a source that never fails, each name up to
/// its limit.
pub fn write_sure_source(alloc: Global, asked: &str, text: &mut String) -> Result<(), AllocError> {
    let (files, rest) = cut(asked, ';');
    let (most, names) = cut(rest, ';');
    let mut source = sure_source_of(alloc, files, most)?;
    for word in names.split_whitespace() {
        read_up_to(alloc, &mut source, word, text)?;
    }
    Ok(())
}
