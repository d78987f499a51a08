//! Number literals.

ghost use Rattle.heyvl_syntax.specs.Bytes.{is_point};
ghost use Rattle.heyvl_syntax.specs.internal.Fronts.{below_limit, number_len};
ghost use Rattle.heyvl_syntax.specs.Literals.{fraction, is_too_large, literal, whole, with_digit};
ghost use Rattle.heyvl_syntax.specs.Literals.{without_last_zeros};
ghost use Rattle.std.specs.List.{position_or_len};
ghost use Rattle.std.specs.Prelude.{◌+◌, ◌<◌, ◌^◌, ◌≡◌, ◌≤◌, cond, fold, length};

use crate::bytes::digits_len;

/// The number `digits / 10^places`. `digits` is at least 0 and below 2^127, and `places` is at most
/// 38. If `places` is positive, `digits` does not end in 0.
#[derive(Clone, Copy, Debug, PartialEq, Eq)]
pub struct Lit {
    pub digits: i128,
    pub places: u8,
}

/// The largest number of digits after the point.
const MAX_PLACES: usize = 38;

/// The least integer above those that the digits of a literal may denote.
const LIMIT: u128 = 1 << 127;

/// Returns the length of the number with which `bytes` begin.
pub(crate) fn number_len(bytes: &[u8]) -> usize
    ensures value { result ≡ number_len bytes.now }
    ensures within { result ≤ length bytes.now }
{
    let whole = digits_len(bytes);
    match bytes[whole..].split_first() {
        Some((b'.', behind)) => match digits_len(behind) {
            0 => whole,
            fraction => whole + 1 + fraction,
        },
        _ => whole,
    }
}

/// Returns the number of bytes before the first point, or of all bytes if there is none.
fn point_place(text: &[u8]) -> usize
    ensures value { result ≡ position_or_len is_point text.now }
    ensures within { result ≤ length text.now }
{
    text.iter().take_while(|byte| **byte != b'.').count()
}

/// Returns the digits before the point, or all digits if there is none, and the digits after it.
fn split_number(text: &[u8]) -> (&[u8], &[u8])
    ensures whole { result.0.now ≡ whole text.now }
    ensures fraction { result.1.now ≡ fraction text.now }
{
    let point = point_place(text);
    if point < text.len() {
        (&text[..point], &text[point + 1..])
    } else {
        text.split_at(point)
    }
}

/// Returns the digits without trailing zeros.
fn without_last_zeros(digits: &[u8]) -> &[u8]
    ensures value { result.now ≡ without_last_zeros digits.now }
    ensures shorter { length result.now ≤ length digits.now }
{
    let mut kept = digits;
    'zeros: while let Some((last, front)) = kept.split_last() {
        if *last != b'0' {
            return kept;
        }
        kept = front;
    }
    kept
}

/// Returns the number with one more digit, or `None` if it is 2^127 or more.
fn with_digit(number: u128, digit: u8) -> Option<u128>
    ensures { result ≡ below_limit (with_digit number digit) }
{
    let more = number
        .checked_mul(10)?
        .checked_add(u128::from(digit.saturating_sub(b'0')))?;
    if more < LIMIT { Some(more) } else { None }
}

/// Returns the number whose digits are those of `start` and then `digits`, or `None` if it is 2^127
/// or more.
fn number_from(start: u128, digits: &[u8]) -> Option<u128>
    requires { start < 2 ^ 127 }
    ensures { result ≡ below_limit (fold with_digit start digits.now) }
{
    let mut number = start;
    for digit in digits {
        number = with_digit(number, *digit)?;
    }
    Some(number)
}

/// Returns the literal of a number's text, or `None` if it exceeds the limits: all its digits,
/// without the point, make a number of at least 2^127, or more than 38 digits follow the point.
pub(crate) fn literal(text: &[u8]) -> Option<Lit>
    ensures { result ≡ cond (is_too_large text.now) None (Some (literal text.now)) }
{
    let (whole, fraction) = split_number(text);
    if fraction.len() > MAX_PLACES {
        return None;
    }
    let front = number_from(0, whole)?;
    number_from(front, fraction)?;
    let kept = without_last_zeros(fraction);
    let digits = number_from(front, kept)?;
    Some(Lit {
        digits: digits as i128,
        places: kept.len() as u8,
    })
}
