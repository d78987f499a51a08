//! Lines of tests: a question, the word `gives`, and the expected result.

use std::alloc::{AllocError, Global};
use std::fmt::Write;

/// A kind of lines, which says how a question is answered.
pub trait LineKind {
    /// Appends the result of the libraries for the question of a line.
    fn write_answer(&self, alloc: Global, asked: &str, text: &mut String) -> Result<(), AllocError>;
}

/// Appends a line and its result, if the result is not the expected one.
fn write_difference<K: LineKind>(
    alloc: Global,
    kind: &K,
    line: &str,
    text: &mut String,
) -> Result<(), AllocError> {
    let (asked, wanted) = line.split_once(" gives").unwrap_or((line, "no answer"));
    let mut found = String::new(alloc);
    kind.write_answer(alloc, asked, &mut found)?;
    if found.as_str().trim() != wanted.trim() {
        writeln!(text, "{line}: {found}")?;
    }
    Ok(())
}

/// Returns whether the line is a comment on the lines after it.
fn is_comment(line: &str) -> bool {
    line.starts_with('#') && !line.contains(" gives")
}

fn write_differences<K: LineKind>(
    alloc: Global,
    kind: &K,
    lines: &str,
    text: &mut String,
) -> Result<(), AllocError> {
    for line in lines.lines() {
        if !is_comment(line) {
            write_difference(alloc, kind, line, text)?;
        }
    }
    Ok(())
}

/// Returns the lines of the texts whose results are not the expected ones, each with its result. A
/// line that begins with `#` and has no `gives` is a comment on the lines after it.
pub fn differences<K: LineKind>(
    alloc: Global,
    kind: &K,
    texts: &[&str],
) -> Result<String, AllocError> {
    let mut text = String::new(alloc);
    for lines in texts {
        write_differences(alloc, kind, lines, &mut text)?;
    }
    Ok(text)
}
