//! The lines of a script.

ghost use Rattle.heyvl_num.specs.Rational.{ratio};
ghost use Rattle.heyvl_syntax.specs.Literals.{with_digit};
ghost use Rattle.run_script.specs.Lines.{are_digits, below, decision, line_of_parts, natural};
ghost use Rattle.run_script.specs.Lines.{number_of_parts, pair_line, quotient, said, script_number};
ghost use Rattle.run_script.specs.Lines.{script_value, triple_line, value_limit, whole};
ghost use Rattle.run_script.specs.internal.ReadLines.{line_of};
ghost use Rattle.run_script.specs.Lines.Line.{decide, steps};
ghost use Rattle.std.specs.Char.{is_ascii_digit};
ghost use Rattle.std.specs.List.{list_all, slice_split};
ghost use Rattle.std.specs.Prelude.{IfOk, IfSome, None, Some, fold, if◌then◌else◌, map, option_map};
ghost use Rattle.std.specs.Prelude.{pos, unsigned_abs, ◌<◌, ◌==◌, ◌^◌, ◌≡◌, ◌≤◌};

use heylo_formula::Val;
use heyvl_num::Frac;
use run_machine::Decide;
use std::alloc::{AllocError, Global};

/// The number of steps of a run is below this one.
const STEP_LIMIT: u128 = 10_001;

/// The numbers in values are below this one.
const VALUE_LIMIT: u128 = 1 << 126;

/// A line of a script.
#[derive(Clone, Copy, Debug)]
pub(crate) enum Line<'a> {
    /// `steps N`
    Steps(u32),
    /// `set NAME VALUE`
    Set(&'a [u8], Val),
    /// `decide left`, `decide right` or `decide VALUE`
    Decide(Decide),
}

/// Returns the parts of a text between separators.
pub(crate) fn parts(alloc: Global, text: &[u8], separator: u8) -> Result<Vec<&[u8]>, AllocError>
    ensures { IfOk result (λ parts. map (λ part. part.now) parts.items
        ≡ slice_split (λ b. b == separator) text.now) }
{
    text.split(|byte| *byte == separator).collect(alloc)
}

fn all_digits(text: &[u8]) -> bool
    ensures { result ≡ list_all is_ascii_digit text.now }
{
    text.iter().all(|byte| byte.is_ascii_digit())
}

/// Returns whether the text is one or more digits.
fn are_digits(text: &[u8]) -> bool
    ensures { result ≡ are_digits text.now }
{
    !text.is_empty() && all_digits(text)
}

/// Returns the number with one more digit, if it is below the limit.
fn with_digit(limit: u128, number: u128, digit: u8) -> Option<u128>
    requires { limit ≤ 2 ^ 126 }
    ensures { result ≡ below limit (with_digit number digit) }
{
    let more = number
        .checked_mul(10)?
        .checked_add(u128::from(digit.saturating_sub(b'0')))?;
    if more < limit { Some(more) } else { None }
}

/// Returns the number with these digits, if it is below the limit.
fn number(limit: u128, digits: &[u8]) -> Option<u128>
    requires some { 0 < limit }
    requires within { limit ≤ 2 ^ 126 }
    ensures value { result ≡ below limit (fold with_digit 0 digits.now) }
    ensures small { IfSome result (λ n. n < limit) }
{
    let mut number = 0;
    for digit in digits {
        number = with_digit(limit, number, *digit)?;
    }
    Some(number)
}

/// Returns the natural number that the text writes in digits, if it is below the limit.
fn natural(limit: u128, text: &[u8]) -> Option<u128>
    requires some { 0 < limit }
    requires within { limit ≤ 2 ^ 126 }
    ensures value { result ≡ natural limit text.now }
    ensures small { IfSome result (λ n. n < limit) }
{
    if are_digits(text) {
        number(limit, text)
    } else {
        None
    }
}

fn signed(number: u128) -> i128
    requires { number < 2 ^ 126 }
    ensures { result ≡ pos number }
{
    number as i128
}

/// Returns the fraction `num`/`den`, unless `den` is 0.
fn fraction(num: i128, den: u128) -> Option<Frac>
    requires num { unsigned_abs num < 2 ^ 126 }
    requires den { den < 2 ^ 126 }
    ensures { result ≡ if den == 0 then None else Some (ratio num den) }
{
    Frac::new(num, signed(den))
}

/// Returns the natural number that the text writes, if a value may contain it.
fn part(text: &[u8]) -> Option<u128>
    ensures value { result ≡ natural value_limit text.now }
    ensures small { IfSome result (λ n. n < 2 ^ 126) }
{
    natural(VALUE_LIMIT, text)
}

/// Returns the integer that the text writes: digits, with `-` before them if it is negative.
fn whole(text: &[u8]) -> Option<Frac>
    ensures { result ≡ whole text.now }
{
    match text.split_first() {
        None => None,
        Some((b'-', digits)) => fraction(-signed(part(digits)?), 1),
        Some(_) => fraction(signed(part(text)?), 1),
    }
}

/// Returns the fraction `P/Q`, unless Q is 0.
fn quotient(p: &[u8], q: &[u8]) -> Option<Frac>
    ensures { result ≡ quotient (natural value_limit p.now) (natural value_limit q.now) }
{
    let num = part(p)?;
    let den = part(q)?;
    fraction(signed(num), den)
}

/// Returns the number whose text has these parts between slashes.
fn number_of_parts(parts: &[&[u8]]) -> Option<Frac>
    ensures { result ≡ number_of_parts (map (λ part. part.now) parts.now) }
{
    match parts {
        [text] => whole(text),
        [p, q] => quotient(p, q),
        _ => None,
    }
}

/// Returns the integer or the fraction that the text writes.
fn script_number(alloc: Global, text: &[u8]) -> Result<Option<Frac>, AllocError>
    ensures { IfOk result (λ number. number ≡ script_number text.now) }
{
    let parts = parts(alloc, text, b'/')?;
    Ok(number_of_parts(&parts))
}

/// Reads `true`, `false` or a number.
fn script_value(alloc: Global, text: &[u8]) -> Result<Option<Val>, AllocError>
    ensures { IfOk result (λ value. value ≡ script_value text.now) }
{
    if text == b"true".as_slice() {
        return Ok(Some(Val::Truth(true)));
    }
    if text == b"false".as_slice() {
        return Ok(Some(Val::Truth(false)));
    }
    Ok(script_number(alloc, text)?.map(Val::Num))
}

/// Reads `left`, `right` or a value.
fn decision(alloc: Global, text: &[u8]) -> Result<Option<Decide>, AllocError>
    ensures { IfOk result (λ made. made ≡ decision text.now) }
{
    if text == b"left".as_slice() {
        return Ok(Some(Decide::Left));
    }
    if text == b"right".as_slice() {
        return Ok(Some(Decide::Right));
    }
    Ok(script_value(alloc, text)?.map(Decide::Give))
}

/// Returns the line `steps N`, if N is at most 10,000.
fn steps_line<'a>(text: &[u8]) -> Option<Line<'a>>
    ensures { option_map line_of result ≡ option_map steps (natural 10001 text.now) }
{
    match natural(STEP_LIMIT, text) {
        Some(number) => Some(Line::Steps(number as u32)),
        None => None,
    }
}

/// Returns the line `decide left`, `decide right` or `decide VALUE`.
fn decide_line<'a>(alloc: Global, text: &[u8]) -> Result<Option<Line<'a>>, AllocError>
    ensures { IfOk result (λ line. option_map line_of line
        ≡ option_map decide (decision text.now)) }
{
    match decision(alloc, text)? {
        Some(made) => Ok(Some(Line::Decide(made))),
        None => Ok(None),
    }
}

/// Returns the line of two parts.
fn pair_line<'a>(alloc: Global, word: &[u8], text: &[u8]) -> Result<Option<Line<'a>>, AllocError>
    ensures { IfOk result (λ line. option_map line_of line ≡ pair_line word.now text.now) }
{
    if word == b"steps".as_slice() {
        return Ok(steps_line(text));
    }
    if word == b"decide".as_slice() {
        return decide_line(alloc, text);
    }
    Ok(None)
}

/// Returns the line of three parts.
fn triple_line<'a>(
    alloc: Global,
    word: &[u8],
    name: &'a [u8],
    text: &[u8],
) -> Result<Option<Line<'a>>, AllocError>
    ensures { IfOk result (λ line. option_map line_of line
        ≡ triple_line word.now name.now text.now) }
{
    if word != b"set".as_slice() {
        return Ok(None);
    }
    match script_value(alloc, text)? {
        Some(value) => Ok(Some(Line::Set(name, value))),
        None => Ok(None),
    }
}

/// Returns the line of these parts.
fn line_of_parts<'a>(alloc: Global, parts: &[&'a [u8]]) -> Result<Option<Line<'a>>, AllocError>
    ensures { IfOk result (λ line. option_map line_of line
        ≡ line_of_parts (map (λ part. part.now) parts.now)) }
{
    match parts {
        [word, text] => pair_line(alloc, word, text),
        [word, name, text] => triple_line(alloc, word, name, text),
        _ => Ok(None),
    }
}

/// Returns the line with this text, or `None` if the text has none of the forms.
pub(crate) fn said<'a>(alloc: Global, line: &'a [u8]) -> Result<Option<Line<'a>>, AllocError>
    ensures { IfOk result (λ said_line. option_map line_of said_line ≡ said line.now) }
{
    let parts = parts(alloc, line, b' ')?;
    line_of_parts(alloc, &parts)
}
