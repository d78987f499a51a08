//! The text of number literals.

ghost use Rattle.heyvl_print.specs.Numbers.{number_text};
ghost use Rattle.std.specs.Prelude.{◌++◌, ◌≡◌, OnOk};

use crate::bytes::{write, write_repeated};
use heyvl_syntax::Lit;
use itoa::Buffer;
use std::alloc::AllocError;

/// Appends a literal to `text`. The sign is not printed: no literal has one.
pub(crate) fn print_number(text: &mut Vec<u8>, number: Lit) -> Result<(), AllocError>
    ensures { OnOk result (text.new.items ≡ text.old.items ++ number_text number) }
{
    let mut buffer = Buffer::new();
    let digits = buffer.format(number.digits.unsigned_abs()).as_bytes();
    let places = usize::from(number.places);
    if places == 0 {
        Ok(write(text, digits)?)
    } else if places < digits.len() {
        let (whole, fraction) = digits.split_at(digits.len() - places);
        write(text, whole)?;
        write(text, b".")?;
        Ok(write(text, fraction)?)
    } else {
        write(text, b"0.")?;
        write_repeated(text, b'0', places - digits.len())?;
        Ok(write(text, digits)?)
    }
}
