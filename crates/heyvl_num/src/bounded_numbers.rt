//! Integers below 2^127 in absolute value, which are the i128 except -2^127.
ghost use Rattle.std.specs.Prelude.{◌+ℤ◌, ◌-ℤ◌, ◌*ℤ◌, SomeIff, IsTrue};
ghost use Rattle.heyvl_num.specs.Exact.{is_small};

/// Returns the product, or `None` if it reaches 2^127 in absolute value.
pub fn product(a: i128, b: i128) -> Option<i128>
    ensures { SomeIff result (IsTrue (is_small (a *ℤ b))) (a *ℤ b) }
{
    match a.checked_mul(b) {
        Some(i128::MIN) | None => None,
        Some(exact) => Some(exact),
    }
}

/// Returns the sum, or `None` if it reaches 2^127 in absolute value.
pub fn sum(a: i128, b: i128) -> Option<i128>
    ensures { SomeIff result (IsTrue (is_small (a +ℤ b))) (a +ℤ b) }
{
    match a.checked_add(b) {
        Some(i128::MIN) | None => None,
        Some(exact) => Some(exact),
    }
}

/// Returns the difference, or `None` if it reaches 2^127 in absolute value.
pub fn difference(a: i128, b: i128) -> Option<i128>
    ensures { SomeIff result (IsTrue (is_small (a -ℤ b))) (a -ℤ b) }
{
    match a.checked_sub(b) {
        Some(i128::MIN) | None => None,
        Some(exact) => Some(exact),
    }
}
