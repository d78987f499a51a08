//! Numbers in a text of certificates.

ghost use Rattle.std.specs.Prelude.{◌≡◌, ℕ, ℤ, ◌<◌, ◌^◌, decimal, FitsSigned, IfSome, Some, neg_ℤ};
ghost use Rattle.std.specs.Prelude.{pos, unsigned_abs};
ghost use Rattle.std.specs.Fmt.{signed_decimal};
ghost use Rattle.std.specs.Int.{w64};

/// Returns the number below 2^64 with these decimal digits, without a sign or a leading zero.
pub fn number(digits: &[u8]) -> Option<u64>
    ensures found { IfSome result (λ n. digits.now ≡ decimal n) }
    ensures only { (n : ℕ) → n < 2 ^ 64 → digits.now ≡ decimal n → result ≡ Some n }
{
    let (first, behind) = digits.split_first()?;
    if *first == b'0' {
        if behind.is_empty() { Some(0) } else { None }
    } else if *first == b'+' {
        // `parse` would accept a plus.
        None
    } else {
        let text = str::from_utf8(digits).ok()?;
        text.parse::<u64>().ok()
    }
}

/// Returns the number below 2^32 with these decimal digits, without a sign or a leading zero.
pub fn short_number(digits: &[u8]) -> Option<u32>
    ensures found { IfSome result (λ n. digits.now ≡ decimal n) }
    ensures only { (n : ℕ) → n < 2 ^ 32 → digits.now ≡ decimal n → result ≡ Some n }
{
    u32::try_from(number(digits)?).ok()
}

/// Returns the negative of `number`, unless `number` is 0 or the result does not fit.
pub fn negative(number: u64) -> Option<i64>
    ensures found { IfSome result (λ z. (0 < number) × (z ≡ neg_ℤ (pos number))) }
    ensures fits { IfSome result (λ z. FitsSigned w64 z) }
    ensures only { 0 < number → number < 2 ^ 63 → result ≡ Some (neg_ℤ (pos number)) }
{
    if number == 0 {
        None
    } else {
        0_i64.checked_sub_unsigned(number)
    }
}

/// Returns the integer with these decimal digits, without a leading zero, and with `-` before a
/// negative one.
pub fn signed_number(digits: &[u8]) -> Option<i64>
    ensures found { IfSome result (λ z. digits.now ≡ signed_decimal z) }
    ensures only { (z : ℤ) → unsigned_abs z < 2 ^ 63 → digits.now ≡ signed_decimal z
        → result ≡ Some z }
{
    let (first, behind) = digits.split_first()?;
    if *first == b'-' {
        negative(number(behind)?)
    } else {
        i64::try_from(number(digits)?).ok()
    }
}
