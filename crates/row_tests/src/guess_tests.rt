//! Proposals for rows, before any variable is eliminated.

use crate::kinds::{Kind, check_texts};
use crate::test_rows::rows_of;
use linear_guess::{Finding, Search};
use std::alloc::{AllocError, Global};
use std::fmt::Write;

fn write_found(finding: &Finding, text: &mut String) -> Result<(), AllocError> {
    match finding {
        Finding::Refuted(multipliers) => {
            let count = multipliers.len();
            write!(text, "refuted by {count}")
        }
        Finding::Met => text.push_str("met"),
        Finding::Open => text.push_str("open"),
    }
}

/// Writes the number of multipliers that are found, or whether a point is.
pub fn write_finding(alloc: Global, rows: &str, text: &mut String) -> Result<(), AllocError> {
    let rows = rows_of(alloc, rows)?;
    let mut search = Search::new(alloc);
    write_found(&search.find(alloc, &rows, rows.len(), 3)?, text)
}

const FINDINGS: &str = "\
# bounds that cross, strict rows that touch, and a cycle of three variables
1x0 -1 <=0 -1x0 2 <=0 gives refuted by 2
1x0 0 <0 -1x0 0 <=0 gives refuted by 2
1x0 -1x1 0 <=0 1x1 -1x2 0 <0 -1x0 1x2 0 <=0 gives refuted by 3
# a strict bound, and three variables in order
-1x0 0 <0 3x0 -1 <0 gives met
2x0 -1x1 1 <=0 1x1 -3x2 0 <0 -1x0 0 <=0 gives met";

#[test]
fn findings(rt: HostRuntime) -> Result<(), AllocError> {
    check_texts(&rt, Kind::Finding, &[FINDINGS])
}
