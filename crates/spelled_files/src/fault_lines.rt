//! The line on a file with an error.

ghost use Rattle.heyvl_places.specs.Places.{place_at};
ghost use Rattle.heyvl_syntax.specs.SourceFaults.{token_place};
ghost use Rattle.spelled_files.specs.FaultTexts.{fault_text, program_texts, source_fault_line};
ghost use Rattle.spelled_files.specs.FaultTexts.{static_texts, text_in};
ghost use Rattle.std.specs.Prelude.{IfOk, OnOk, decimal, length, ◌++◌, ◌<◌, ◌^◌, ◌≡◌};

use heyvl_places::{Place, Span, place_at};
use heyvl_syntax::Token;
use itoa::Buffer;
use std::alloc::{AllocError, Global};

/// Returns the text of a static error, or of an error of a program of guarded commands.
fn static_text(number: u8) -> &'static [u8]
    ensures { result.now ≡ text_in (static_texts ++ program_texts) number }
{
    match number {
        10 => b"unknown name",
        11 => b"name given twice",
        12 => b"types do not agree",
        13 => b"input assigned",
        14 => b"wrong number of values",
        15 => b"literal out of range",
        16 => b"division",
        17 => b"statement on the wrong side",
        18 => b"loop without one rule",
        19 => b"k out of range",
        20 => b"reward in a weak procedure",
        21 => b"call against the direction",
        22 => b"ranking body",
        23 => b"quantifier out of place",
        24 => b"procedure too large",
        30 => b"no pGCL program",
        31 => b"reserved name",
        _ => b"",
    }
}

/// Returns the text of an error.
fn fault_text(number: u8) -> &'static [u8]
    ensures { result.now ≡ fault_text number }
{
    match number {
        1 => b"no token here",
        2 => b"comment without end",
        3 => b"number too large",
        4 => b"unexpected token or end of file",
        5 => b"nested too deeply",
        6 => b"too many procedures",
        _ => static_text(number),
    }
}

fn write_number(text: &mut Vec<u8>, number: u32) -> Result<(), AllocError>
    ensures { OnOk result (text.new.items ≡ text.old.items ++ decimal number) }
{
    let mut buffer = Buffer::new();
    text.extend_from_slice(buffer.format(number).as_bytes())
}

/// Returns the place of the token with this index, or the end of the bytes if there is none.
pub fn token_place(bytes: &[u8], tokens: &[Token], index: u32) -> Span
    requires { length bytes.now < 2 ^ 31 }
    ensures { result ≡ token_place bytes.now tokens.now index }
{
    match tokens.get(index as usize) {
        Some(token) => token.span,
        None => {
            let end = bytes.len() as u32;
            Span { from: end, to: end }
        }
    }
}

/// Returns the line and column at which a span begins. A span that begins after the bytes is at
/// their end.
fn begins_at(bytes: &[u8], span: Span) -> Place
    requires { length bytes.now < 2 ^ 31 }
    ensures { result ≡ place_at bytes.now span.from }
{
    let end = bytes.len() as u32;
    if span.from < end {
        place_at(bytes, span.from)
    } else {
        place_at(bytes, end)
    }
}

/// Returns the line `LINE:COLUMN: fault NUMBER: TEXT` on an error of a file with these bytes.
pub fn source_fault_line(
    alloc: Global,
    bytes: &[u8],
    number: u8,
    place: Span,
) -> Result<Vec<u8>, AllocError>
    requires { length bytes.now < 2 ^ 31 }
    ensures { IfOk result (λ text. text.items ≡ source_fault_line bytes.now number place) }
{
    let place = begins_at(bytes, place);
    let mut text = Vec::new(alloc);
    write_number(&mut text, place.line)?;
    text.extend_from_slice(b":")?;
    write_number(&mut text, place.column)?;
    text.extend_from_slice(b": fault ")?;
    write_number(&mut text, u32::from(number))?;
    text.extend_from_slice(b": ")?;
    text.extend_from_slice(fault_text(number))?;
    text.extend_from_slice(b"\n")?;
    Ok(text)
}
