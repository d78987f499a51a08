//! Goals with cells that no state reaches, and the certificates of `decide` for them, worked out by
//! hand.

use crate::kinds::{Kind, check_texts};
use std::alloc::AllocError;

/// The stated bound selects one of two sums by the first two comparisons, and the computed form
/// selects one by the third comparison.
const ROWS: &str = "\
1 x * 0 + 0 < 0 0 <= and 0 1 select 0 0 <= 1 0 select ; uu ; 0 gives sff 0:1 2:1
1 x * 0 + 0 < 0 0 <= and 0 1 y * 0 + select 0 0 <= 1 y * 0 + 0 select ; uu ; 0 gives sff 0:1 2:1
1 x * 0 + 0 < 0 0 <= and 1 y * 0 + 1 select 0 0 <= 1 0 select ; uu ; 0 gives sff 0:1 2:1
1 x * 0 + 0 < 0 0 <= and 1 x * 0 + 1 x * 1 + select 0 0 <= 1 x * 1 + 0 select ; uu ; 0 gives sff 0:1 2:1
1 x * 0 + 0 < 0 0 <= and inf 1 select 0 0 <= 1 0 select ; uu ; 0 gives sff 0:1 1:1
1 x * 0 + 0 < 0 0 <= and 0 inf select 0 0 <= inf 0 select ; uu ; 0 gives sft 0:1 2:1
1 x * 0 + 0 < 0 0 <= and inf inf select 0 0 <= inf 0 select ; uu ; 0 gives sft 0:1 1:1
1 x * 0 + 0 < 0 0 <= and 1 y * 0 + 1 y * 0 + select 0 0 <= 1 y * 0 + 0 select ; uu ; 0 gives sff 0:1 2:1
1 x * 0 + 0 < 0 0 <= and 0 1 x * 1 y * 0 + + select 0 0 <= 1 x * 1 y * 0 + + 0 select ; uu ; 0 gives sff 0:1 2:1
1 x * 0 + 0 < 0 0 <= and 1 x * 1 y * 0 + + 5 select 0 0 <= 5 0 select ; uu ; 0 gives sff 0:1 2:1
1 y * 0 + 0 < 0 0 <= and 0 1 select 0 0 <= 1 0 select ; uu ; 0 gives sff 0:1 2:1
1 y * 0 + 0 < 0 0 <= and 0 1 x * 0 + select 0 0 <= 1 x * 0 + 0 select ; uu ; 0 gives sff 0:1 3:1
1 y * 0 + 0 < 0 0 <= and 1 x * 0 + 1 select 0 0 <= 1 0 select ; uu ; 0 gives sff 0:1 3:1
1 y * 0 + 0 < 0 0 <= and 1 y * 0 + 1 y * 0 + select 0 0 <= 1 y * 0 + 0 select ; uu ; 0 gives sff 0:1 2:1
1 y * 0 + 0 < 0 0 <= and 0 1 x * 1 y * 0 + + select 0 0 <= 1 x * 1 y * 0 + + 0 select ; uu ; 0 gives sff 0:1 3:1
1 y * 0 + 0 < 0 0 <= and inf 1 x * 0 + select 0 0 <= 1 x * 0 + 0 select ; uu ; 0 gives sff 0:1 1:1
1 y * 0 + 0 < 0 0 <= and 1 x * 0 + inf select 0 0 <= inf 0 select ; uu ; 0 gives sft 0:1 2:1
1 y * 0 + 0 < 0 0 <= and 2 x * 3 y * 0 + + 7 select 0 0 <= 7 0 select ; uu ; 0 gives sff 0:1 3:1
1 y * 0 + 0 < 0 0 <= and 1 x * 1 + 1 x * 1 + select 0 0 <= 1 x * 1 + 0 select ; uu ; 0 gives sff 0:1 2:1
1 x * 0 + 1 <= 3 1 x * 0 + <= and 0 1 select 0 0 <= 1 0 select ; uu ; 0 gives ssfff 0:1 1:1
1 x * 0 + 1 <= 3 1 x * 0 + <= and 0 1 y * 0 + select 0 0 <= 1 y * 0 + 0 select ; uu ; 0 gives ssfff 0:1 1:1
1 x * 0 + 1 <= 3 1 x * 0 + <= and 1 y * 0 + 1 y * 0 + select 0 0 <= 1 y * 0 + 0 select ; uu ; 0 gives ssfff 0:1 1:1
1 x * 0 + 1 <= 3 1 x * 0 + <= and inf 1 select 0 0 <= 1 0 select ; uu ; 0 gives ssfff 0:1 1:1
1 x * 0 + 1 <= 3 1 x * 0 + <= and 0 inf select 0 0 <= inf 0 select ; uu ; 0 gives ssftt 0:1 1:1
1 y * 2 + 1 x * 0 + <= 1 x * 0 + 1 <= and 0 1 select 0 0 <= 1 0 select ; uu ; 0 gives ssfff 0:1 1:1 4:1
1 y * 2 + 1 x * 0 + <= 1 x * 0 + 1 <= and 1 x * 0 + 1 x * 0 + select 0 0 <= 1 x * 0 + 0 select ; uu ; 0 gives ssfff 0:1 1:1 4:1
1 y * 2 + 1 x * 0 + <= 1 x * 0 + 1 <= and inf 1 select 0 0 <= 1 0 select ; uu ; 0 gives ssfff 0:1 1:1 3:1
1 y * 2 + 1 x * 0 + <= 1 x * 0 + 1 <= and 0 inf select 0 0 <= inf 0 select ; uu ; 0 gives ssftt 0:1 1:1 4:1
1 x * 0 + 0 < 0 0 <= and 0 1 select 1 y * 0 + 0 < 2 1 select ; uu ; 0 gives sfsff 0:1 1:1
1 x * 0 + 0 < 0 0 <= and 0 1 select 1 y * 0 + 0 < 2 1 select ; uu ; 1 gives sfsff 1:1 4:1
1 x * 0 + 1 <= 0 0 <= and 1 2 select 1 x * 0 + 1 <= 1 2 select ; uu ; 1 gives ssffsff 0:1 1:1
1 x * 0 + 1 <= 0 0 <= and 1 2 select 1 x * 0 + 1 <= 1 2 select ; uu ; 2 gives ssffsff 0:1 1:1
1 x * 0 + 1 <= 0 0 <= and 1 inf select 1 x * 0 + 1 <= 1 inf select ; uu ; 1 gives ssffsft 0:1 1:1
1 x * 0 + 1 <= 0 0 <= and 1 inf select 1 x * 0 + 1 <= 1 inf select ; uu ; 2 gives ssffsft 0:1 1:1
1099511627803 x * 1099511627791 y * 0 + + 10 <= 1 x * 0 + 0 < and 1099511627831 x * 0 + 1099511627689 y * 0 + select 0 0 <= 1099511627689 y * 0 + 0 select ; uu ; 0 gives ssfff 1:1 3:1
1099511627803 x * 1099511627791 y * 0 + + 10 <= 1 x * 0 + 0 < and 1099511627831 x * 0 + 1099511627689 y * 0 + select 0 0 <= 1099511627689 y * 0 + 0 select ; uu ; 1 gives ssfff 2:1
1099511627803 x * 1099511627791 y * 0 + + 10 <= 1 x * 0 + 0 < and 1099511627831 x * 0 + 1099511627689 y * 0 + select 0 0 <= 1099511627689 y * 0 + 0 select ; uu ; 2 gives ssfff 1:1";

#[test]
fn certificates_of_dropped_ends(rt: HostRuntime) -> Result<(), AllocError> {
    check_texts(&rt, Kind::Certificate, &[ROWS])
}
