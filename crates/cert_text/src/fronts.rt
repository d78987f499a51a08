//! Numbers at the start of a text, and the line of an integer split there, read in one pass.

ghost use Rattle.std.specs.Prelude.{◌≡◌, ◌<◌, ◌^◌, ◌+◌, ◌-◌, ◌*◌, ◌++◌, ◌∷◌, decimal, FitsSigned};
ghost use Rattle.std.specs.Prelude.{IfSome};
ghost use Rattle.std.specs.Fmt.{signed_decimal};
ghost use Rattle.std.specs.Int.{IsInRange, w64};
ghost use Rattle.cert_text.specs.Certificates.{IsWholeSplit};
ghost use Rattle.cert_text.specs.Lines.{line_text, whole};

use crate::numbers::negative;

/// Returns the number with one more digit, or `None` if it does not fit into 64 bits.
fn with_digit(number: u64, digit: u8) -> Option<u64>
    requires { IsInRange 48 57 digit }
    ensures { IfSome result (λ n. (n ≡ number * 10 + (digit - 48)) × (n < 2 ^ 64)) }
{
    number.checked_mul(10)?.checked_add(u64::from(digit - b'0'))
}

/// Reads the digits at the start of `text` after the digit `first`. Returns the number that they
/// write together, and the rest of the text.
fn with_digits(first: u64, text: &[u8]) -> Option<(u64, &[u8])>
    requires { 0 < first }
    ensures { IfSome result (λ r. decimal first ++ text.now ≡ decimal r.0 ++ r.1.now) }
{
    let mut number = first;
    let mut rest = text;
    'digits: while let Some((digit, behind)) = rest.split_first() {
        if !digit.is_ascii_digit() {
            return Some((number, rest));
        }
        number = with_digit(number, *digit)?;
        rest = behind;
    }
    Some((number, rest))
}

/// Splits a text into its leading number and the rest.
fn front_number(text: &[u8]) -> Option<(u64, &[u8])>
    ensures { IfSome result (λ r. text.now ≡ decimal r.0 ++ r.1.now) }
{
    let (first, behind) = text.split_first()?;
    if *first == b'0' {
        Some((0, behind))
    } else if first.is_ascii_digit() {
        with_digits(u64::from(*first - b'0'), behind)
    } else {
        None
    }
}

/// Splits a text into its leading integer and the rest.
fn front_signed(text: &[u8]) -> Option<(i64, &[u8])>
    ensures text { IfSome result (λ r. text.now ≡ signed_decimal r.0 ++ r.1.now) }
    ensures fits { IfSome result (λ r. FitsSigned w64 r.0) }
{
    if let Some(digits) = text.strip_prefix(b"-".as_slice()) {
        let (number, behind) = front_number(digits)?;
        Some((negative(number)?, behind))
    } else {
        let (number, behind) = front_number(text)?;
        Some((i64::try_from(number).ok()?, behind))
    }
}

/// Splits a text into its first line and the rest, if this line is an integer split. Returns the
/// split variable, the number of the split, and the rest.
pub fn front_split(text: &[u8]) -> Option<(u32, i64, &[u8])>
    ensures valid { IfSome result (λ r. IsWholeSplit r.0 r.1) }
    ensures text { IfSome result (λ r. text.now ≡ line_text (whole r.0 r.1) ++ 10 ∷ r.2.now) }
{
    let text = text.strip_prefix(b"i ".as_slice())?;
    let (variable, text) = front_number(text)?;
    let text = text.strip_prefix(b" ".as_slice())?;
    let (bound, text) = front_signed(text)?;
    let behind = text.strip_prefix(b"\n".as_slice())?;
    let variable = u32::try_from(variable).ok()?;
    if bound.unsigned_abs() < 0x4000_0000_0000_0000 {
        Some((variable, bound, behind))
    } else {
        None
    }
}
