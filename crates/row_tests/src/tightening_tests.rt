//! The rows of linear values, worked out by hand.

ghost use Rattle.std.specs.Prelude.{IfOk};
ghost use Rattle.linear_values.specs.Lin.{AreNormal};
ghost use Rattle.linear_values.specs.PlainValues.{lin_of};

use crate::fractions::is_zero;
use crate::kinds::{Kind, check_texts};
use heylo_formula::Ty;
use heyvl_num::Frac;
use linear_values::{Lin, tightened};
use std::alloc::{AllocError, Global};
use test_lines::cut;
use test_texts::{fraction, types_of, write_row};

/// Returns the sum of a multiple of the variable 0, one of the variable 1, and a constant.
fn line(alloc: Global, first: Frac, second: Frac, rest: Frac) -> Result<Lin, AllocError>
    ensures { IfOk result (λ l. AreNormal (lin_of l).terms) }
{
    let mut terms = Vec::new(alloc);
    if !is_zero(&first) {
        terms.push((0, first))?;
    }
    if !is_zero(&second) {
        terms.push((1, second))?;
    }
    Ok(Lin { terms, rest })
}

/// Reads a linear value: the coefficients of x and y, and the constant.
fn line_of(alloc: Global, text: &str) -> Result<Lin, AllocError>
    ensures { IfOk result (λ l. AreNormal (lin_of l).terms) }
{
    let (first, text) = cut(text, ' ');
    let (second, rest) = cut(text, ' ');
    line(alloc, fraction(first)?, fraction(second)?, fraction(rest)?)
}

/// Writes the row of a linear value. x has the type of the letter, and y is a UInt.
pub fn write_tightened(alloc: Global, asked: &str, text: &mut String) -> Result<(), AllocError> {
    let (value, rest) = cut(asked, ';');
    let (ty, sign) = cut(rest, ';');
    let mut types = types_of(alloc, ty)?;
    types.push(Ty::UInt)?;
    let value = line_of(alloc, value)?;
    match tightened(alloc, &types, &value, sign == "<")? {
        Some(row) => write_row(&row, text),
        None => text.push_str("bits"),
    }
}

/// Integer variables: the coefficients are divided by their common divisor, the constant is rounded
/// up, and no row stays strict.
const WHOLE: &str = "\
# x <= 0 and x < 0
1 0 0 ; i gives 1x0 0 <=0
1 0 0 ; i ; < gives 1x0 1 <=0
# 2x + 3 <= 0: x + 3/2
2 0 3 ; i gives 1x0 2 <=0
2 0 3 ; i ; < gives 1x0 2 <=0
# 2x - 3 <= 0: x - 3/2
2 0 -3 ; i gives 1x0 -1 <=0
2 0 -3 ; i ; < gives 1x0 -1 <=0
# 2x - 4 <= 0: x - 2
2 0 -4 ; i gives 1x0 -2 <=0
2 0 -4 ; i ; < gives 1x0 -1 <=0
# -2x + 4 <= 0: -x + 2
-2 0 4 ; i gives -1x0 2 <=0
-2 0 4 ; i ; < gives -1x0 3 <=0
# x/2 + y/3 - 1/4 <= 0: times 6, 3x + 2y - 3/2
1/2 1/3 -1/4 ; i gives 3x0 2x1 -1 <=0
1/2 1/3 -1/4 ; i ; < gives 3x0 2x1 -1 <=0
# 4x - 6y + 5 <= 0: 2x - 3y + 5/2
4 -6 5 ; i gives 2x0 -3x1 3 <=0
4 -6 5 ; i ; < gives 2x0 -3x1 3 <=0
# x/6 - y/4 + 1/12: times 12, 2x - 3y + 1
1/6 -1/4 1/12 ; i gives 2x0 -3x1 1 <=0
1/6 -1/4 1/12 ; i ; < gives 2x0 -3x1 2 <=0
# 2x/3 + 4y/5: times 15 and without 2, 5x + 6y
2/3 4/5 0 ; i gives 5x0 6x1 0 <=0
2/3 4/5 0 ; i ; < gives 5x0 6x1 1 <=0
# x - 1/2 and x + 1/2
1 0 -1/2 ; i gives 1x0 0 <=0
1 0 -1/2 ; i ; < gives 1x0 0 <=0
1 0 1/2 ; i gives 1x0 1 <=0
1 0 1/2 ; i ; < gives 1x0 1 <=0
# x/2 - 7/3: x - 14/3
1/2 0 -7/3 ; i gives 1x0 -4 <=0
1/2 0 -7/3 ; i ; < gives 1x0 -4 <=0
# -y/3 - 2: -y - 6
0 -1/3 -2 ; i gives -1x1 -6 <=0
0 -1/3 -2 ; i ; < gives -1x1 -5 <=0";

/// If a UReal or a Boolean is among the variables, the constant stays exact and a strict row stays
/// strict.
const FRACTIONS: &str = "\
1 0 0 ; r gives 1x0 0 <=0
1 0 0 ; r ; < gives 1x0 0 <0
1 0 0 ; b ; < gives 1x0 0 <0
# 2x + 3: in whole numbers already
2 0 3 ; r gives 2x0 3 <=0
2 0 3 ; r ; < gives 2x0 3 <0
2 0 3 ; b ; < gives 2x0 3 <0
# 2x - 4: without 2
2 0 -4 ; r gives 1x0 -2 <=0
2 0 -4 ; r ; < gives 1x0 -2 <0
2 0 -4 ; b ; < gives 1x0 -2 <0
# x - 1/2: times 2
1 0 -1/2 ; r gives 2x0 -1 <=0
1 0 -1/2 ; r ; < gives 2x0 -1 <0
1 0 -1/2 ; b ; < gives 2x0 -1 <0
# x/2 + y/3 - 1/4: times 12
1/2 1/3 -1/4 ; r gives 6x0 4x1 -3 <=0
1/2 1/3 -1/4 ; r ; < gives 6x0 4x1 -3 <0
1/2 1/3 -1/4 ; b ; < gives 6x0 4x1 -3 <0
# -4x + 6y + 5
-4 6 5 ; r gives -4x0 6x1 5 <=0
-4 6 5 ; r ; < gives -4x0 6x1 5 <0
-4 6 5 ; b ; < gives -4x0 6x1 5 <0
# -4x + 6y + 2: without 2
-4 6 2 ; r gives -2x0 3x1 1 <=0
-4 6 2 ; r ; < gives -2x0 3x1 1 <0
-4 6 2 ; b ; < gives -2x0 3x1 1 <0
# 2x/3 - 4/9: times 9 and without 2, 3x - 2
2/3 0 -4/9 ; r gives 3x0 -2 <=0
2/3 0 -4/9 ; r ; < gives 3x0 -2 <0
2/3 0 -4/9 ; b ; < gives 3x0 -2 <0
# a UReal that doesn't occur changes nothing: 2y - 3
0 2 -3 ; r ; < gives 1x1 -1 <=0";

/// Without variables, the constant is -1, 0 or 1, and a strict row stays strict.
const CONSTANTS: &str = "\
0 0 0 ; i gives 0 <=0
0 0 0 ; r ; < gives 0 <0
0 0 5 ; i gives 1 <=0
0 0 5 ; r ; < gives 1 <0
0 0 -7/2 ; i gives -1 <=0
0 0 -7/2 ; r ; < gives -1 <0
0 0 1/4611686018427387903 ; i gives 1 <=0
0 0 1/4611686018427387903 ; r ; < gives 1 <0
0 0 -4611686018427387903 ; i gives -1 <=0
0 0 -4611686018427387903 ; r ; < gives -1 <0
0 0 4611686018427387903/2 ; i gives 1 <=0
0 0 4611686018427387903/2 ; r ; < gives 1 <0";

/// The result is `bits` exactly if a number reaches 2^62, before or after, or the multiple of the
/// constant reaches 2^127.
const BOUND: &str = "\
# before: a coefficient, a constant or a denominator is 2^62
4611686018427387904 0 0 ; i gives bits
1/4611686018427387904 0 0 ; i gives bits
1 0 -4611686018427387904 ; i gives bits
1 0 1/4611686018427387904 ; i gives bits
0 0 4611686018427387904 ; i gives bits
# 2^62 - 1 on one variable loses itself as common divisor, and its constant is rounded
4611686018427387903 0 0 ; i gives 1x0 0 <=0
4611686018427387903 0 -1 ; i gives 1x0 0 <=0
4611686018427387903 1 0 ; i gives 4611686018427387903x0 1x1 0 <=0
1 0 4611686018427387903 ; i gives 1x0 4611686018427387903 <=0
# after: x/2 + (2^62 - 1) is x + 2^63 - 2
1/2 0 4611686018427387903 ; i gives bits
# x/2^31 + y/(2^31 + 1): a coefficient of 2^31 + 1 and one of 2^31, though their least common multiple is above 2^62
1/2147483648 1/2147483649 0 ; i gives 2147483649x0 2147483648x1 0 <=0
# x + y/(2^62 - 1): a coefficient of 2^62 - 1 and one of 1
1 1/4611686018427387903 0 ; i gives 4611686018427387903x0 1x1 0 <=0
# 2x + y/(2^62 - 1): a coefficient of 2^63 - 2
2 1/4611686018427387903 0 ; i gives bits
# exact: x + 1/(2^62 - 1), and 2x + y + 1/(2^62 - 1) with a coefficient of 2^63 - 2
1 0 1/4611686018427387903 ; r gives 4611686018427387903x0 1 <=0
2 1 1/4611686018427387903 ; r gives bits
# with n for 2^61: (n + 1)/n * x + (n + 1)/(n - 1) * y + c has the factor n * (n - 1)/(n + 1); with c = 32/31 the product
# stays below 2^127, and with c = 64/63 it doesn't
2305843009213693953/2305843009213693952 2305843009213693953/2305843009213693951 32/31 ; i gives 2305843009213693951x0 2305843009213693952x1 2380225041768974401 <=0
2305843009213693953/2305843009213693952 2305843009213693953/2305843009213693951 64/63 ; i gives bits
# a strict row over whole variables: x + 2^62 - 1 < 0 is x + 2^62 <= 0
1 0 4611686018427387903 ; i ; < gives bits
1 0 4611686018427387903 ; r ; < gives 1x0 4611686018427387903 <0";

#[test]
fn tightened_rows(rt: HostRuntime) -> Result<(), AllocError> {
    check_texts(&rt, Kind::Tightening, &[WHOLE, FRACTIONS, CONSTANTS, BOUND])
}
