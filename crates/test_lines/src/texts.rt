//! Parts of lines: columns, numbers and bytes. A malformed part yields `AllocError`.

use std::alloc::{AllocError, Global};
use std::fmt::Write;

/// Splits a text at the first `mark`, or at the end if there is none.
pub fn cut(text: &str, mark: char) -> (&str, &str) {
    match text.split_once(mark) {
        Some((first, rest)) => (first.trim(), rest.trim()),
        None => (text.trim(), ""),
    }
}

/// Reads an integer.
pub fn whole(word: &str) -> Result<i128, AllocError> {
    match word.parse::<i128>() {
        Ok(n) => Ok(n),
        Err(_) => Err(AllocError),
    }
}

/// Reads a natural number.
pub fn unsigned(word: &str) -> Result<u128, AllocError> {
    match word.parse::<u128>() {
        Ok(n) => Ok(n),
        Err(_) => Err(AllocError),
    }
}

/// Reads a coefficient of a row.
pub fn coefficient(word: &str) -> Result<i64, AllocError> {
    match word.parse::<i64>() {
        Ok(n) => Ok(n),
        Err(_) => Err(AllocError),
    }
}

/// Reads the number of a variable or of a row.
pub fn index(word: &str) -> Result<u32, AllocError> {
    match word.parse::<u32>() {
        Ok(n) => Ok(n),
        Err(_) => Err(AllocError),
    }
}

/// Reads a multiplier, or the number of a call.
pub fn count(word: &str) -> Result<u64, AllocError> {
    match word.parse::<u64>() {
        Ok(n) => Ok(n),
        Err(_) => Err(AllocError),
    }
}

/// Reads a number of bytes.
pub fn size(word: &str) -> Result<usize, AllocError> {
    match word.parse::<usize>() {
        Ok(n) => Ok(n),
        Err(_) => Err(AllocError),
    }
}

/// Reads the numbers of calls, with spaces between them.
pub fn calls_of(alloc: Global, text: &str) -> Result<Vec<u64>, AllocError> {
    let mut calls = Vec::new(alloc);
    for word in text.split_whitespace() {
        calls.push(count(word)?)?;
    }
    Ok(calls)
}

/// Writes bytes in brackets, with a bar for each line feed.
pub fn write_bytes(bytes: &[u8], text: &mut String) -> Result<(), AllocError> {
    text.push_str("[")?;
    for letter in std::str::from_utf8(bytes).unwrap_or("?").chars() {
        text.push(if letter == '\n' { '|' } else { letter })?;
    }
    text.push_str("] ")
}

/// Appends numbers, each followed by a space.
pub fn write_numbers(numbers: &[u32], text: &mut String) -> Result<(), AllocError> {
    for number in numbers {
        write!(text, "{number} ")?;
    }
    Ok(())
}

/// Appends the first `count` multiples of `of`, at most 1,000 of them, each between the texts
/// `before` and `after`.
pub fn write_multiples(
    text: &mut String,
    count: u64,
    of: u64,
    before: &str,
    after: &str,
) -> Result<(), AllocError> {
    for i in 0..count.min(1_000) {
        let times = of.min(1_000) * (i + 1);
        write!(text, "{before}{times}{after}")?;
    }
    Ok(())
}
