//! Fractions and extended numbers. 2^127 - 1 is the largest number that fits, of either sign;
//! -2^127 is an i128 and does not fit.

use crate::kinds::{Kind, check_texts};
use heyvl_num::{Ext, Frac, gcd};
use std::alloc::AllocError;
use std::cmp::Ordering;
use std::fmt::Write;
use test_lines::{cut, unsigned, whole};
use test_texts::{extended, fraction, write_fraction};

/// Writes a number, or `none`.
fn write_found(found: Option<Frac>, text: &mut String) -> Result<(), AllocError> {
    match &found {
        Some(x) => write_fraction(x, text),
        None => text.push_str("none"),
    }
}

fn write_extended(found: Option<Ext>, text: &mut String) -> Result<(), AllocError> {
    match &found {
        Some(Ext::Fin(x)) => write_fraction(x, text),
        Some(Ext::Inf) => text.push_str("inf"),
        None => text.push_str("none"),
    }
}

fn order(found: Option<Ordering>) -> &'static str {
    match found {
        Some(Ordering::Less) => "less",
        Some(Ordering::Equal) => "equal",
        Some(Ordering::Greater) => "greater",
        None => "none",
    }
}

fn write_divisor(first: &str, second: &str, text: &mut String) -> Result<(), AllocError> {
    let found = gcd(unsigned(first)?, unsigned(second)?);
    write!(text, "{found}")
}

/// Writes the result of an operation on two fractions.
fn write_of_fractions(
    by: &str,
    first: &str,
    second: &str,
    text: &mut String,
) -> Result<(), AllocError> {
    let x = fraction(first)?;
    let y = fraction(second)?;
    match by {
        "add" => write_found(x.add(&y), text),
        "sub" => write_found(x.sub(&y), text),
        "mul" => write_found(x.mul(&y), text),
        "compare" => text.push_str(order(x.compare(&y))),
        _ => text.push_str("no operation"),
    }
}

fn write_rounded(by: &str, word: &str, text: &mut String) -> Result<(), AllocError> {
    let x = fraction(word)?;
    let found = if by == "floor" { x.floor() } else { x.ceil() };
    write!(text, "{found}")
}

/// Writes the result of an operation on two extended numbers.
fn write_of_extended(
    by: &str,
    first: &str,
    second: &str,
    text: &mut String,
) -> Result<(), AllocError> {
    let x = extended(first)?;
    let y = extended(second)?;
    match by {
        "+" => write_extended(x.add(&y), text),
        "*" => write_extended(x.mul(&y), text),
        _ => text.push_str(order(x.compare(&y))),
    }
}

/// Writes the result of an operation such as `add 1/2 1/3`; `+`, `*` and `?` are sums, products and
/// comparisons of extended numbers.
pub fn write_operation(asked: &str, text: &mut String) -> Result<(), AllocError> {
    let (by, rest) = cut(asked, ' ');
    let (first, second) = cut(rest, ' ');
    match by {
        "new" => write_found(Frac::new(whole(first)?, whole(second)?), text),
        "floor" | "ceil" => write_rounded(by, first, text),
        "gcd" => write_divisor(first, second, text),
        "+" | "*" | "?" => write_of_extended(by, first, second, text),
        _ => write_of_fractions(by, first, second, text),
    }
}

/// Operations that are exact, or have no result.
const EXACT: &str = "\
new 6 4 gives 3/2
new 6 -4 gives -3/2
new -6 4 gives -3/2
new -4 -6 gives 2/3
new 0 5 gives 0
new 0 -5 gives 0
new 3 0 gives none
new 0 0 gives none
new 170141183460469231731687303715884105727 170141183460469231731687303715884105727 gives 1
new 170141183460469231731687303715884105727 -170141183460469231731687303715884105727 gives -1
new -170141183460469231731687303715884105727 1 gives -170141183460469231731687303715884105727
new 170141183460469231731687303715884105727 -1 gives -170141183460469231731687303715884105727
new -170141183460469231731687303715884105728 1 gives none
new 1 -170141183460469231731687303715884105728 gives none
new -170141183460469231731687303715884105728 -170141183460469231731687303715884105728 gives none
add 1/2 1/3 gives 5/6
add 1/6 1/10 gives 4/15
add -1/2 1/3 gives -1/6
add 1/2 -1/2 gives 0
add 6/-4 -3/2 gives -3
add 170141183460469231731687303715884105727/1 0/1 gives 170141183460469231731687303715884105727
add 170141183460469231731687303715884105727/1 1/1 gives none
add -170141183460469231731687303715884105727/1 -1/1 gives none
add 1/170141183460469231731687303715884105727 1/1 gives none
# the sum is above 2^64 by little, but 2^64 * 2^63 doesn't fit
add 18446744073709551616/1 1/9223372036854775808 gives none
sub 1/2 1/3 gives 1/6
sub 1/6 1/10 gives 1/15
sub -1/2 1/3 gives -5/6
sub 6/-4 -3/2 gives 0
sub 170141183460469231731687303715884105727/1 1/1 gives 170141183460469231731687303715884105726
sub -170141183460469231731687303715884105727/1 1/1 gives none
sub 1/170141183460469231731687303715884105727 1/1 gives -170141183460469231731687303715884105726/170141183460469231731687303715884105727
sub 170141183460469231731687303715884105727/2 2/170141183460469231731687303715884105727 gives none
mul 1/2 1/3 gives 1/6
mul 1/2 -1/2 gives -1/4
mul 6/-4 -3/2 gives 9/4
mul 170141183460469231731687303715884105727/1 0/1 gives 0
mul -170141183460469231731687303715884105727/1 1/1 gives -170141183460469231731687303715884105727
# the product is 1, but 2 * (2^127 - 1) doesn't fit
mul 170141183460469231731687303715884105727/2 2/170141183460469231731687303715884105727 gives none
mul 18446744073709551616/1 1/9223372036854775808 gives 2
mul -18446744073709551616/1 9223372036854775808/1 gives none
compare 1/2 1/3 gives greater
compare -1/2 1/3 gives less
compare -1/2 -1/3 gives less
compare 6/-4 -3/2 gives equal
compare 170141183460469231731687303715884105727/1 -170141183460469231731687303715884105727/1 gives greater
compare 1/170141183460469231731687303715884105727 1/1 gives less
compare 170141183460469231731687303715884105727/2 2/170141183460469231731687303715884105727 gives none
compare -18446744073709551616/1 1/9223372036854775808 gives none";

/// Rounding, greatest common divisors and extended numbers.
const OTHERS: &str = "\
floor 7/2 gives 3
ceil 7/2 gives 4
floor -7/2 gives -4
ceil -7/2 gives -3
floor 4/2 gives 2
ceil 4/2 gives 2
floor 1/3 gives 0
ceil 1/3 gives 1
floor -1/3 gives -1
ceil -1/3 gives 0
floor 0/1 gives 0
ceil 0/1 gives 0
floor 170141183460469231731687303715884105727/1 gives 170141183460469231731687303715884105727
ceil 170141183460469231731687303715884105727/1 gives 170141183460469231731687303715884105727
floor -170141183460469231731687303715884105727/1 gives -170141183460469231731687303715884105727
ceil -170141183460469231731687303715884105727/1 gives -170141183460469231731687303715884105727
floor -170141183460469231731687303715884105727/2 gives -85070591730234615865843651857942052864
ceil -170141183460469231731687303715884105727/2 gives -85070591730234615865843651857942052863
gcd 0 0 gives 0
gcd 0 7 gives 7
gcd 7 0 gives 7
gcd 12 18 gives 6
gcd 17 5 gives 1
gcd 85070591730234615865843651857942052864 170141183460469231731687303715884105728 gives 85070591730234615865843651857942052864
gcd 340282366920938463463374607431768211455 3 gives 3
# extended by infinity
+ 0 1/2 gives 1/2
+ 170141183460469231731687303715884105727 1/2 gives none
+ 1/2 inf gives inf
* 1/2 1/2 gives 1/4
* 170141183460469231731687303715884105727 170141183460469231731687303715884105727 gives none
* inf 1/2 gives inf
* 0 inf gives 0
? 0 1/2 gives less
? 170141183460469231731687303715884105727 inf gives less
? inf inf gives equal";

#[test]
fn numbers(rt: HostRuntime) -> Result<(), AllocError> {
    check_texts(&rt, Kind::Number, &[EXACT, OTHERS])
}
