//! Results of elimination, worked out by hand.

use crate::kinds::{Kind, check_texts};
use crate::test_rows::{answer, rows_of};
use linear_elim::Elim;
use std::alloc::{AllocError, Global};
use std::fmt::Write;
use test_lines::{cut, write_multiples};
use test_texts::{types_of, write_broken, write_multipliers, write_point};

fn write_refuted(multipliers: &[(u32, u64)], text: &mut String) -> Result<(), AllocError> {
    text.push_str("refuted ")?;
    write_multipliers(multipliers, text)
}

/// Writes the result of elimination.
fn write_elim(found: &Elim, text: &mut String) -> Result<(), AllocError> {
    match found {
        Elim::NoSolution(multipliers) => write_refuted(multipliers, text),
        Elim::Point(point) => write_point("point ", point, text),
        Elim::Fraction(broken) => write_broken(broken, text),
        Elim::Rows(steps, count) => write!(text, "rows {steps} {count}"),
        Elim::Bits => text.push_str("bits"),
    }
}

/// Writes the result of eliminating the variables of rows, which have these types.
pub fn write_elimination(alloc: Global, asked: &str, text: &mut String) -> Result<(), AllocError> {
    let (rows, types) = cut(asked, ';');
    let types = types_of(alloc, types)?;
    let rows = rows_of(alloc, rows)?;
    write_elim(&answer(alloc, &rows, &types)?, text)
}

/// Rows without a solution, with multipliers, and rows whose combinations reach the limit of
/// numbers.
const REFUTED: &str = "\
# `x - 1 <= 0` and `-x + 2 <= 0` add up to `1 <= 0`
1x0 -1 <=0 -1x0 2 <=0 ; i gives refuted 0:1 1:1
# `x < 0` and `-x < 0` touch at 0, which meets neither
1x0 0 <0 -1x0 0 <0 ; r gives refuted 0:1 1:1
1x0 0 <0 -1x0 0 <=0 ; r gives refuted 0:1 1:1
# `0 <= 0` is no contradiction, and of two contradictions the first one counts
0 <=0 0 <0 1 <=0 ;  gives refuted 1:1
-1 <0 1 <=0 0 <0 ;  gives refuted 1:1
# of rows with equal coefficients the one with the greatest constant stays, a strict one before another, else the first
# x <= 0, x < 0 and 0 <= x
1x0 0 <=0 1x0 0 <0 -1x0 0 <=0 ; i gives refuted 1:1 2:1
# x <= 5, x <= 1 and 2 <= x
1x0 -5 <=0 1x0 -1 <=0 -1x0 2 <=0 ; i gives refuted 1:1 2:1
# x <= 1, x < 2 and 3 <= x
1x0 -1 <=0 1x0 -2 <0 -1x0 3 <=0 ; i gives refuted 0:1 2:1
# `x <= 1` twice, and `2 <= x`
1x0 -1 <=0 1x0 -1 <=0 -1x0 2 <=0 ; i gives refuted 0:1 2:1
# rows with other terms and the same fingerprint are kept side by side: twice the factor of the fingerprints, and 1 more, is
# 4354685564936845355 modulo 2^64; z <= 0, that times x <= 0 twice, the second time with a greater constant, and 1 <= z
1x2 0 <=0 4354685564936845355x0 0 <=0 4354685564936845355x0 1 <=0 -1x2 1 <=0 ; iii gives refuted 0:1 3:1
# each row is taken as often as the other's coefficient says, and the multipliers are in lowest terms
# 3 times 2x - 1 <= 0 and twice -3x + 3 <= 0 add up to 3 <= 0
2x0 -1 <=0 -3x0 3 <=0 ; r gives refuted 0:3 1:2
# 2x + 2 <= 0 and -2x <= 0
2x0 2 <=0 -2x0 0 <=0 ; r gives refuted 0:1 1:1
# `x <= y`, `y <= z` and `z < x`: no two of the rows contradict each other
1x0 -1x1 0 <=0 1x1 -1x2 0 <=0 -1x0 1x2 0 <0 ; iru gives refuted 0:1 1:1 2:1
# twice `-x + 2^61*y <= 0` and `2x + 1 <= 0` add up to `2^62*y + 1 <= 0`
-1x0 2305843009213693952x1 0 <=0 2x0 1 <=0 1x1 0 <=0 ; ii gives bits";

/// Rows with a solution: the point, or the first variable that has no integer.
const POINTS: &str = "\
# `-2x + y <= 0`, `2x + y - 2 <= 0` and `-y + 1 <= 0`: y is 1, and then x is 1/2
-2x0 1x1 0 <=0 2x0 1x1 -2 <=0 -1x1 1 <=0 ; ii gives broken x0 [1/2 1/2] x1 1
# `0 < x` and `x < 1`: the ends are whole, and aren't inside
-1x0 0 <0 1x0 -1 <0 ; u gives broken x0 (0 1)
# where 0 is inside, it is taken: 0 <= 0, x <= 0 and 0 <= x, x <= 5
0 <=0 ; i gives point 0
1x0 0 <=0 -1x0 0 <=0 ; i gives point 0
1x0 -5 <=0 ; r gives point 0
# the whole number that is nearest to 0: -3/2 <= x <= -1/2, 5/2 <= x, 3 < x, x < -3
-2x0 -3 <=0 2x0 1 <=0 ; i gives point -1
-2x0 5 <=0 ; u gives point 3
-1x0 3 <0 ; i gives point 4
1x0 3 <0 ; i gives point -4
# the near end where it is inside, else the middle: 1/2 <= x < 2, 1 < x <= 2, 1 < x < 2, -2 < x < -1
-2x0 1 <=0 1x0 -2 <0 ; r gives point 1/2
-1x0 1 <0 1x0 -2 <=0 ; r gives point 3/2
-1x0 1 <0 1x0 -2 <0 ; r gives point 3/2
-1x0 -2 <0 1x0 1 <0 ; r gives point -3/2
# the only end where it is inside, else 1 past it: 3 <= x, 5/2 < x, x <= -3, x < -5/2
-1x0 3 <=0 ; r gives point 3
-2x0 5 <0 ; r gives point 7/2
1x0 3 <=0 ; r gives point -3
2x0 5 <0 ; r gives point -7/2
# `1 <= x + y` and `x <= 5`: y occurs in one row and is eliminated first, so x is chosen first
-1x0 -1x1 1 <=0 1x0 -5 <=0 ; rr gives point 0 1
# `(2^62 - 2)*y + 1 <= 0` stands after the step on x
-1x0 2305843009213693951x1 0 <=0 2x0 1 <=0 1x1 0 <=0 ; ii gives point -1 -1
# variables without rows are 0, and false where they are Booleans
-1x1 7 <=0 ; birb gives point false 7 0 false
# from 1/2 to 3/2: the near end where it is inside, else the middle; and 0 where it is inside
-2x0 1 <=0 2x0 -3 <=0 ; r gives point 1/2
-2x0 1 <0 2x0 -3 <=0 ; r gives point 1
-2x0 0 <=0 2x0 -3 <=0 ; r gives point 0
# from 1/2 to 5/2 it is 1, above 1 it is 2, and from -5/2 to below -1 it is -2; between 1 and 2 there is none
-2x0 1 <=0 2x0 -5 <=0 ; i gives point 1
-2x0 2 <0 2x0 -5 <=0 ; u gives point 2
-2x0 -5 <=0 2x0 2 <0 ; i gives point -2
-2x0 2 <0 2x0 -4 <0 ; i gives broken x0 (1 2)";

#[test]
fn eliminations(rt: HostRuntime) -> Result<(), AllocError> {
    check_texts(&rt, Kind::Elimination, &[REFUTED, POINTS])
}

/// Writes a line: the row `-x + i*y` for each i from 1 and the row `x + 66*j*y` for each j from 1,
/// each followed by `part`, then `rest`.
fn write_line(
    text: &mut String,
    lowers: u64,
    uppers: u64,
    part: &str,
    rest: &str,
) -> Result<(), AllocError> {
    write_multiples(text, lowers, 1, "-1x0 ", part)?;
    write_multiples(text, uppers, 66, "1x0 ", part)?;
    text.push_str(rest)
}

/// 65 rows and 65 rows with different coefficients of y have 4,225 combinations; 65 and 64 have
/// 4,160. 200 and 200 have 40,000, whose coefficients of y are 13,334 different numbers from 67 to
/// 13,400. Two more rows add up to 1 <= 0. 1,000 and 1,000 have coefficients from 67 to 67,000;
/// none of their combinations is kept.
///
/// Without z each combination is a multiple of y <= 0, so that one row is left. If y and z are not
/// negative, one lower and one upper row of the 130 imply the others. If y is at least 3, `-y <= 0`
/// is not among the rows, and they imply none.
fn write_crossings(text: &mut String) -> Result<(), AllocError> {
    let with_z = "x1 1x2 0 <=0 ";
    write_line(text, 65, 65, with_z, "; iii gives rows 1 4225\n")?;
    write_line(text, 65, 64, with_z, "; iii gives rows 1 4160\n")?;
    write_line(
        text,
        65,
        65,
        with_z,
        "-1x1 0 <=0 -1x2 0 <=0 ; iuu gives point 0 0 0\n",
    )?;
    write_line(
        text,
        65,
        65,
        with_z,
        "-1x1 0 <=0 -1x1 3 <=0 -1x2 0 <=0 ; iuu gives refuted 0:1 65:1 131:67 132:2\n",
    )?;
    write_line(text, 200, 200, with_z, "; iii gives rows 1 13334\n")?;
    write_line(text, 1000, 1000, with_z, "; iii gives rows 1 66934\n")?;
    write_line(
        text,
        200,
        200,
        "x1 1048577x2 0 <=0 ",
        "; iii gives rows 1 13334\n",
    )?;
    write_line(
        text,
        200,
        200,
        with_z,
        "-1x0 1x1 1x2 1 <=0 1x0 -1x1 -1x2 0 <=0 ; iii gives refuted 400:1 401:1\n",
    )?;
    write_line(text, 200, 200, "x1 0 <=0 ", "; iii gives point 0 0 0")
}

#[test]
fn too_many_rows(rt: HostRuntime) -> Result<(), AllocError> {
    let mut text = String::new(rt.alloc());
    write_crossings(&mut text)?;
    check_texts(&rt, Kind::Elimination, &[text.as_str()])
}
