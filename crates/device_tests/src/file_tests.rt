//! Real files.

use heyvl_io::{FileSource, ReadStop, read_all};
use std::alloc::{AllocError, Global};
use std::test::Fail;
use std::{env, fs, process};

/// Returns a path in the folder for temporary files, with the number of the process in its name.
fn path_of(rt: HostRuntime, name: &str) -> Result<String, Fail> {
    let alloc = rt.alloc();
    let number = process::id(rt.process());
    let folder = env::temp_dir(&rt)?;
    let folder = folder.as_str();
    Ok(format!(in alloc; "{folder}/{name}_{number}.txt")?)
}

/// Returns whether a file with these bytes is read as a whole up to the limit, and is too long for
/// a smaller one.
fn is_read(rt: HostRuntime, path: &str, bytes: &[u8]) -> Result<bool, Fail> {
    let alloc = rt.alloc();
    fs::write(&rt, path, bytes)?;
    let mut source = FileSource::new(rt);
    let whole = read_all(alloc, &mut source, path, bytes.len());
    let short = read_all(alloc, &mut source, path, bytes.len().saturating_sub(1));
    fs::remove_file(&rt, path)?;
    Ok(whole?.as_slice() == bytes && short.err() == Some(ReadStop::TooLong) && source.faults == 0)
}

#[test]
fn a_file_is_read(rt: HostRuntime) -> Result<(), Fail> {
    let path = path_of(rt, "heyvl_io")?;
    assert!(rt; is_read(rt, path.as_str(), b"hello\n")?);
    Ok(())
}

/// More bytes than two reads ask for, and no multiple of the bytes of one read.
const LENGTH: usize = 10_007;

/// Returns bytes of which no two reads return the same.
fn pattern(alloc: Global) -> Result<Vec<u8>, AllocError> {
    let mut bytes = Vec::with_capacity(alloc, LENGTH)?;
    for place in 0..LENGTH {
        bytes.push((place % 251) as u8)?;
    }
    Ok(bytes)
}

#[test]
fn a_file_above_one_read_is_read_whole(rt: HostRuntime) -> Result<(), Fail> {
    let path = path_of(rt, "device_tests")?;
    let bytes = pattern(rt.alloc())?;
    assert!(rt; is_read(rt, path.as_str(), &bytes)?);
    Ok(())
}

/// A folder can be opened and not read.
#[test]
fn neither_no_file_nor_a_folder_is_read(rt: HostRuntime) -> Result<(), Fail> {
    let gone = path_of(rt, "gone")?;
    let folder = env::temp_dir(&rt)?;
    let mut source = FileSource::new(rt);
    let first = read_all(rt.alloc(), &mut source, gone.as_str(), 5);
    assert!(rt; first.err() == Some(ReadStop::Failed) && source.faults == 1);
    let second = read_all(rt.alloc(), &mut source, folder.as_str(), 5);
    assert!(rt; second.err() == Some(ReadStop::Failed) && source.faults == 2);
    Ok(())
}
