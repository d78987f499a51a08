//! Sums of rows times multipliers, and the check that such a sum is a contradiction.
//!
//! Multipliers are a list of pairs: the index of a row, and how often the row is added.

ghost use Rattle.std.specs.Prelude.{◌≡◌, ◌↔◌, ◌+◌, ℕ, ◌<◌, ◌≤◌, ◌^◌, ℤ, pos, ◌+ℤ◌, ◌*ℤ◌, length};
ghost use Rattle.std.specs.Prelude.{true, IsTrue, unsigned_abs};
ghost use Rattle.std.specs.List.{All};
ghost use Rattle.std.specs.Option.{SomeIff};
ghost use Rattle.linear_rows.specs.Row.{IsRow};
ghost use Rattle.linear_rows.specs.Combination.{combined, uses_strict, IsWideThroughout};
ghost use Rattle.linear_rows.specs.Combination.{IsContradiction};
ghost use Rattle.linear_rows.specs.internal.Columns.{number_in, AreMultipliers, IsBeyondAt};
ghost use Rattle.linear_rows.specs.internal.Columns.{Vanishes, IsUnmet};

use crate::row::Row;
use crate::terms::coefficient_of;

/// A column of the rows: their constants, or their coefficients of one variable.
#[derive(Clone, Copy)]
enum Column {
    Constant,
    Coefficient(u32),
}

/// Returns the number of `row` in `column`.
fn number_of(row: &Row, column: Column) -> i64
    requires row { IsRow row.now }
    ensures value { result ≡ number_in column row.now }
    ensures narrow { unsigned_abs result < 2 ^ 62 }
{
    match column {
        Column::Constant => row.rest,
        Column::Coefficient(variable) => coefficient_of(&row.terms, variable),
    }
}

fn multiple(multiplier: u64, number: i64) -> i128
    requires multiplier_narrow { multiplier < 2 ^ 62 }
    requires number_narrow { unsigned_abs number < 2 ^ 62 }
    ensures value { result ≡ pos multiplier *ℤ number }
    ensures small { unsigned_abs (pos multiplier *ℤ number) < 2 ^ 124 }
{
    i128::from(multiplier) * i128::from(number)
}

/// Returns `sum + multiplier * number`, or None if its absolute value is 2^126 or more.
fn added(sum: i128, multiplier: u64, number: i64) -> Option<i128>
    requires sum_wide { unsigned_abs sum < 2 ^ 126 }
    requires multiplier_narrow { multiplier < 2 ^ 62 }
    requires number_narrow { unsigned_abs number < 2 ^ 62 }
    ensures { SomeIff result (unsigned_abs (sum +ℤ (pos multiplier *ℤ number)) < 2 ^ 126)
        (sum +ℤ (pos multiplier *ℤ number)) }
{
    if number == 0 {
        return Some(sum);
    }
    let more = multiple(multiplier, number);
    let next = sum + more;
    if next.unsigned_abs() < 1 << 126 {
        Some(next)
    } else {
        None
    }
}

/// Returns the sum of the rows' numbers in `column`, each times its multiplier, or None if the
/// absolute value of a partial sum is 2^126 or more.
fn total(rows: &[Row], multipliers: &[(u32, u64)], column: Column) -> Option<i128>
    requires rows { All IsRow rows.now }
    requires multipliers { AreMultipliers (length rows.now) multipliers.now }
    ensures { SomeIff result (IsWideThroughout (number_in column) multipliers.now rows.now)
        (combined (number_in column) multipliers.now rows.now) }
{
    let mut sum = 0;
    for &(index, multiplier) in multipliers {
        let number = number_of(&rows[index as usize], column);
        let Some(next) = added(sum, multiplier, number) else {
            return None;
        };
        sum = next;
    }
    Some(sum)
}

/// Returns whether a row that has a multiplier is strict.
fn is_strict(rows: &[Row], multipliers: &[(u32, u64)]) -> bool
    requires multipliers { AreMultipliers (length rows.now) multipliers.now }
    ensures { result ≡ uses_strict multipliers.now rows.now }
{
    for &(index, _) in multipliers {
        let row = &rows[index as usize];
        if row.strict {
            return true;
        }
    }
    false
}

/// Returns whether the indexes increase and are below `count`, and each multiplier is from 1 to
/// 2^62 - 1.
fn are_multipliers(count: usize, multipliers: &[(u32, u64)]) -> bool
    ensures { IsTrue result ↔ AreMultipliers count multipliers.now }
{
    let mut least = 0;
    for &(index, multiplier) in multipliers {
        let place = index as usize;
        if place < least || count <= place || multiplier == 0 || multiplier >= 1 << 62 {
            return false;
        }
        least = place + 1;
    }
    true
}

/// Returns the larger of two numbers.
fn greater(first: u64, second: u64) -> u64
    ensures first { first ≤ result }
    ensures second { second ≤ result }
    ensures within { first ≤ 2 ^ 32 → second ≤ 2 ^ 32 → result ≤ 2 ^ 32 }
{
    if first < second { second } else { first }
}

/// Returns a number above all variables of `terms`.
fn beyond(terms: &[(u32, i64)]) -> u64
    ensures above { All (λ t. t.0 < result) terms.now }
    ensures within { result ≤ 2 ^ 32 }
{
    let mut least = 0;
    for &(variable, _) in terms {
        least = greater(least, u64::from(variable) + 1);
    }
    least
}

/// Returns a number above all variables of the rows that have a multiplier.
fn beyond_used(rows: &[Row], multipliers: &[(u32, u64)]) -> u64
    requires multipliers { AreMultipliers (length rows.now) multipliers.now }
    ensures above { All (IsBeyondAt result rows.now) multipliers.now }
    ensures within { result ≤ 2 ^ 32 }
{
    let mut least = 0;
    for &(index, _) in multipliers {
        let row = &rows[index as usize];
        least = greater(least, beyond(&row.terms));
    }
    least
}

/// Returns whether the coefficients of `variable`, times the multipliers, add up to 0, and each
/// partial sum is below 2^126 in absolute value.
fn vanishes(rows: &[Row], multipliers: &[(u32, u64)], variable: u32) -> bool
    requires rows { All IsRow rows.now }
    requires multipliers { AreMultipliers (length rows.now) multipliers.now }
    ensures { IsTrue result ↔ Vanishes variable multipliers.now rows.now }
{
    match total(rows, multipliers, Column::Coefficient(variable)) {
        Some(sum) => sum == 0,
        None => false,
    }
}

/// Returns whether every variable vanishes from the sum of the rows.
fn all_vanish(rows: &[Row], multipliers: &[(u32, u64)]) -> bool
    requires rows { All IsRow rows.now }
    requires multipliers { AreMultipliers (length rows.now) multipliers.now }
    ensures { IsTrue result ↔ ((x : ℕ) → Vanishes x multipliers.now rows.now) }
{
    for variable in 0..beyond_used(rows, multipliers) {
        if !vanishes(rows, multipliers, variable as u32) {
            return false;
        }
    }
    true
}

/// Returns whether the constants, times the multipliers, add up to a number above 0, or to 0 while
/// a strict row has a multiplier, and each partial sum is below 2^126 in absolute value.
fn is_unmet(rows: &[Row], multipliers: &[(u32, u64)]) -> bool
    requires rows { All IsRow rows.now }
    requires multipliers { AreMultipliers (length rows.now) multipliers.now }
    ensures { IsTrue result ↔ IsUnmet multipliers.now rows.now }
{
    match total(rows, multipliers, Column::Constant) {
        Some(sum) => sum > 0 || (sum == 0 && is_strict(rows, multipliers)),
        None => false,
    }
}

/// Returns whether `multipliers` combine `rows` to a contradiction, such as `1 <= 0` or `0 < 0`.
///
/// The rows `1 - x <= 0` and `x < 0` with the multipliers 1 and 1 combine to `1 < 0`.
pub fn contradicts(rows: &[Row], multipliers: &[(u32, u64)]) -> bool
    requires { All IsRow rows.now }
    ensures { IsTrue result ↔ IsContradiction multipliers.now rows.now }
{
    if !are_multipliers(rows.len(), multipliers) {
        return false;
    }
    if !all_vanish(rows, multipliers) {
        return false;
    }
    is_unmet(rows, multipliers)
}
