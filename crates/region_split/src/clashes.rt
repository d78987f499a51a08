//! Pairs of rows that exclude each other.

ghost use Rattle.std.specs.Prelude.{◌≡◌, ◌<◌, ◌^◌, ◌+ℤ◌, pos, unsigned_abs, IsTrue};
ghost use Rattle.region_split.specs.internal.Clashes.{Cancel, AddUp, Clash};

use linear_rows::Row;

fn is_narrow(number: i64) -> bool
    ensures { IsTrue result → unsigned_abs number < 2 ^ 62 }
{
    number.unsigned_abs() < 1 << 62
}

fn cancel(first: i64, second: i64) -> bool
    ensures narrow { IsTrue result → unsigned_abs first < 2 ^ 62 }
    ensures zero { IsTrue result → first +ℤ second ≡ pos 0 }
{
    if !is_narrow(first) {
        return false;
    }
    if !is_narrow(second) {
        return false;
    }
    first + second == 0
}

/// Returns whether the variables increase, and the coefficients of each add up to 0.
fn all_cancel(first: &[(u32, i64)], second: &[(u32, i64)]) -> bool
    ensures { IsTrue result → Cancel 0 first.now second.now }
{
    let mut least: u64 = 0;
    let mut terms = first;
    let mut others = second;
    'terms: while let Some((term, more)) = terms.split_first() {
        let Some((other, rest)) = others.split_first() else {
            return false;
        };
        if u64::from(term.0) < least || term.0 != other.0 {
            return false;
        }
        if !cancel(term.1, other.1) {
            return false;
        }
        least = u64::from(term.0) + 1;
        terms = more;
        others = rest;
    }
    others.is_empty()
}

/// Returns whether the constants of two rows add up to a false inequality.
fn add_up(first: &Row, second: &Row) -> bool
    ensures { IsTrue result → AddUp first.now second.now }
{
    if !is_narrow(first.rest) {
        return false;
    }
    if !is_narrow(second.rest) {
        return false;
    }
    let sum = first.rest + second.rest;
    sum > 0 || (sum == 0 && (first.strict || second.strict))
}

/// Returns true only if the sum of two rows has no variable and is false.
pub fn clash(first: &Row, second: &Row) -> bool
    ensures { IsTrue result → Clash first.now second.now }
{
    all_cancel(&first.terms, &second.terms) && add_up(first, second)
}
