//! Writing numbers, values and places.

ghost use Rattle.std.specs.Prelude.{◌≡◌, ◌++◌, ◌<◌, ◌^◌, ◌≤◌, OnOk, length};
ghost use Rattle.number_texts.specs.ValueTexts.{fraction_text, place_text, value_text};

use heylo_formula::Val;
use heyvl_num::Frac;
use heyvl_places::place_at;
use itoa::{Buffer, Integer};
use std::alloc::AllocError;

/// Appends the decimal digits of the number to the text.
pub fn write_number<I: Integer>(text: &mut Vec<u8>, number: I) -> Result<(), AllocError>
    ensures { OnOk result (text.new.items ≡ text.old.items ++ I.text number) }
{
    let mut buffer = Buffer::new();
    Ok(text.extend_from_slice(buffer.format(number).as_bytes())?)
}

/// Appends the fraction to the text: `p`, or `p/q` in lowest terms.
pub fn write_fraction(text: &mut Vec<u8>, fraction: Frac) -> Result<(), AllocError>
    ensures { OnOk result (text.new.items ≡ text.old.items ++ fraction_text fraction) }
{
    write_number(text, fraction.num())?;
    if fraction.den() == 1 {
        Ok(())
    } else {
        text.push(b'/')?;
        write_number(text, fraction.den())
    }
}

/// Appends the value of a variable to the text: `true`, `false`, or a fraction.
pub fn write_value(text: &mut Vec<u8>, value: Val) -> Result<(), AllocError>
    ensures { OnOk result (text.new.items ≡ text.old.items ++ value_text value) }
{
    match value {
        Val::Truth(true) => Ok(text.extend_from_slice(b"true")?),
        Val::Truth(false) => Ok(text.extend_from_slice(b"false")?),
        Val::Num(fraction) => write_fraction(text, fraction),
    }
}

/// Appends the line and column of the byte at `at`, or of the end of the bytes, to the text:
/// `LINE:COLUMN`, both counted from 1.
pub fn write_place(text: &mut Vec<u8>, bytes: &[u8], at: u32) -> Result<(), AllocError>
    requires inside { at ≤ length bytes.now }
    requires short { length bytes.now < 2 ^ 31 }
    ensures { OnOk result (text.new.items ≡ text.old.items ++ place_text bytes.now at) }
{
    let place = place_at(bytes, at);
    write_number(text, place.line)?;
    text.push(b':')?;
    write_number(text, place.column)
}
