//! Multipliers that combine rows to a contradiction, and others.

use crate::kinds::{Kind, check_texts};
use crate::test_rows::rows_of;
use linear_rows::contradicts;
use std::alloc::{AllocError, Global};
use test_lines::cut;
use test_texts::multipliers_of;

/// Writes whether the multipliers combine the rows to a contradiction.
pub fn write_contradiction(
    alloc: Global,
    asked: &str,
    text: &mut String,
) -> Result<(), AllocError> {
    let (rows, multipliers) = cut(asked, ';');
    let multipliers = multipliers_of(alloc, multipliers, ' ')?;
    let rows = rows_of(alloc, rows)?;
    let contradicts = contradicts(&rows, &multipliers);
    text.push_str(if contradicts { "yes" } else { "no" })
}

const CONTRADICTIONS: &str = "\
# 0 < 0 and 0 <= 0
0 <0 0 <=0 ; 0:1 gives yes
0 <0 0 <=0 ; 0:1 1:1 gives yes
0 <0 0 <=0 ; 0:4611686018427387903 gives yes
# 0 <= 0 is no contradiction, and nothing is none
0 <0 0 <=0 ; 1:1 gives no
0 <0 0 <=0 ; gives no
# there is no row 2, the indexes don't grow, a row twice, a multiplier 0, and one of 2^62
0 <0 0 <=0 ; 2:1 gives no
0 <0 0 <=0 ; 1:1 0:1 gives no
0 <0 0 <=0 ; 0:1 0:1 gives no
0 <0 0 <=0 ; 0:0 gives no
0 <0 0 <=0 ; 0:4611686018427387904 gives no
# a natural number below 0; x is left, and -x
1x0 1 <=0 -1x0 0 <=0 ; 0:1 1:1 gives yes
1x0 1 <=0 -1x0 0 <=0 ; 0:1 gives no
1x0 1 <=0 -1x0 0 <=0 ; 0:1 1:2 gives no";

/// Four times (2^62 - 1)^2 is below 2^126, five times is not.
const SUMS: &str = "\
4611686018427387903 <=0 4611686018427387903 <=0 4611686018427387903 <=0 4611686018427387903 <=0 4611686018427387903 <=0 ; 0:4611686018427387903 1:4611686018427387903 2:4611686018427387903 3:4611686018427387903 gives yes
4611686018427387903 <=0 4611686018427387903 <=0 4611686018427387903 <=0 4611686018427387903 <=0 4611686018427387903 <=0 ; 0:4611686018427387903 1:4611686018427387903 2:4611686018427387903 3:4611686018427387903 4:4611686018427387903 gives no";

#[test]
fn contradictions(rt: HostRuntime) -> Result<(), AllocError> {
    check_texts(&rt, Kind::Contradiction, &[CONTRADICTIONS, SUMS])
}
