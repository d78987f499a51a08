//! What bytes begin with.

ghost use Rattle.heyvl_syntax.specs.internal.Fronts.{FitsIn, IsWithin, block_front, first_close};
ghost use Rattle.heyvl_syntax.specs.internal.Fronts.{found_of, front_of, key_of, mark_front};
ghost use Rattle.heyvl_syntax.specs.internal.Fronts.{mark_of, slash_front, token_front, word_front};
ghost use Rattle.heyvl_syntax.specs.internal.Fronts.{word_text};
ghost use Rattle.heyvl_syntax.specs.Bytes.{is_letter};
ghost use Rattle.std.specs.Prelude.{◌≡◌, ◌≤◌, drop, length, take};

use crate::bytes::{is_letter, is_white, line_len, word_len};
use crate::comments::first_close;
use crate::keys::{Key, key_of};
use crate::literals::number_len;
use crate::marks::{Mark, mark_of};

/// What bytes begin with, and its length in bytes.
#[derive(Clone, Copy)]
pub(crate) enum Front {
    /// There are no bytes.
    End,
    /// A byte of white space, or a comment.
    Blank(usize),
    /// An identifier.
    Word(usize),
    /// A number, which may exceed the limits of literals.
    Number(usize),
    /// A keyword.
    Key(Key, usize),
    /// A symbol.
    Mark(Mark, usize),
    /// An error other than a number that exceeds the limits: its number and its length.
    Fault(u8, usize),
}

/// Returns the comment or the error of bytes that begin with `/*`.
fn block_front(bytes: &[u8]) -> Front
    requires { 2 ≤ length bytes.now }
    ensures value { found_of bytes.now result ≡ block_front (first_close (drop 2 bytes.now)) }
    ensures within { IsWithin (length bytes.now) result }
{
    match first_close(&bytes[2..]) {
        None => Front::Fault(2, 2),
        Some(inner) => Front::Blank(2 + inner + 2),
    }
}

/// Returns the length of the first byte, which is a letter, `_` or `\`, and the letters, digits and
/// `_` after it.
fn text_len(bytes: &[u8]) -> usize
    ensures value { take result bytes.now ≡ word_text bytes.now }
    ensures within { result ≤ length bytes.now }
{
    match bytes.split_first() {
        None => 0,
        Some((_, behind)) => word_len(behind) + 1,
    }
}

/// Returns the keyword, the identifier or the error with which `bytes` begin. `begins` says whether
/// their first byte may begin an identifier.
fn word_front(begins: bool, bytes: &[u8]) -> Front
    ensures value { found_of bytes.now result
        ≡ word_front begins (word_text bytes.now) (key_of (word_text bytes.now)) }
    ensures within { IsWithin (length bytes.now) result }
{
    let n = text_len(bytes);
    match key_of(&bytes[..n]) {
        Some(key) => Front::Key(key, n),
        None => {
            if begins {
                Front::Word(n)
            } else {
                Front::Fault(1, 1)
            }
        }
    }
}

/// Returns the symbol or the error with which `bytes` begin.
fn mark_front(bytes: &[u8]) -> Front
    ensures value { found_of bytes.now result ≡ mark_front (mark_of bytes.now) }
    ensures within { IsWithin (length bytes.now) result }
{
    match mark_of(bytes) {
        None => Front::Fault(1, 1),
        Some(mark) => Front::Mark(mark, mark.text().len()),
    }
}

/// Returns the comment, the symbol or the error with which `bytes` begin, whose first byte is `/`.
fn slash_front(bytes: &[u8]) -> Front
    ensures value { found_of bytes.now result ≡ slash_front bytes.now }
    ensures within { IsWithin (length bytes.now) result }
{
    if bytes.starts_with(b"//") {
        Front::Blank(line_len(bytes))
    } else if bytes.starts_with(b"/*") {
        block_front(bytes)
    } else {
        mark_front(bytes)
    }
}

/// Returns the token or the error with which `bytes` begin. Their first byte is `first`, which is
/// not white space and begins no comment.
fn token_front(first: u8, bytes: &[u8]) -> Front
    ensures value { found_of bytes.now result ≡ token_front first bytes.now }
    ensures within { IsWithin (length bytes.now) result }
{
    if is_letter(first) || first == b'\\' {
        word_front(is_letter(first), bytes)
    } else if first.is_ascii_digit() {
        Front::Number(number_len(bytes))
    } else {
        mark_front(bytes)
    }
}

/// Returns what `bytes` begin with, by their first byte.
fn front_by_byte(bytes: &[u8]) -> Front
    ensures value { found_of bytes.now result ≡ front_of bytes.now }
    ensures within { IsWithin (length bytes.now) result }
{
    match bytes.split_first() {
        None => Front::End,
        Some((first, _)) => {
            if is_white(*first) {
                Front::Blank(1)
            } else if *first == b'/' {
                slash_front(bytes)
            } else {
                token_front(*first, bytes)
            }
        }
    }
}

/// Returns what `bytes` begin with: the end, white space or a comment, the longest token, or an
/// error.
pub(crate) fn front_of(bytes: &[u8]) -> Front
    ensures value { found_of bytes.now result ≡ front_of bytes.now }
    ensures inside { FitsIn (length bytes.now) result }
{
    front_by_byte(bytes)
}
