//! Certificates that are accepted, or refused at a node.

use crate::kinds::{Kind, check_texts};
use std::alloc::AllocError;

/// Multipliers of one row.
const HALVES: &str = "\
# 1/2 is at least 1/2: the one row, the denied goal, is 0 < 0
1/2 1/2 ;  ; f0:1 gives yes
1/2 1/2 ;  ; f0:4611686018427387903 gives yes
# no side is infinite, and there is no question
1/2 1/2 ;  ; t gives no
1/2 1/2 ;  ; t t s gives no
# nothing is no contradiction, there is no row 1, a row twice, a multiplier 0, a multiplier 2^62
1/2 1/2 ;  ; f gives no
1/2 1/2 ;  ; f1:1 gives no
1/2 1/2 ;  ; f0:1,0:1 gives no
1/2 1/2 ;  ; f0:0 gives no
1/2 1/2 ;  ; f0:4611686018427387904 gives no";

/// The stated bound is 0 if x is below 0, and otherwise 1; the computed form is 1; x is a natural
/// number. If x is below 0, the rows are `x + 1 <= 0`, the denied goal `-1 < 0` and `-x <= 0`;
/// otherwise `-x <= 0`, the denied goal `0 < 0` and `-x <= 0`.
const BELOW_ZERO: &str = "\
# the denied goal stands between the answers of the path and the signs of the variables
x 0 < 0 1 select 1 ; u ; f0:1,2:1 f1:1 s gives yes
# x is left, -x is left, the indexes don't grow
x 0 < 0 1 select 1 ; u ; f0:1,1:1 f1:1 s gives no t
x 0 < 0 1 select 1 ; u ; f0:1,2:2 f1:1 s gives no t
x 0 < 0 1 select 1 ; u ; f2:1,0:1 f1:1 s gives no t
# a missing split, and a split past the last question
x 0 < 0 1 select 1 ; u ; f0:1,2:1 gives no
x 0 < 0 1 select 1 ; u ; t gives no
x 0 < 0 1 select 1 ; u ; f0:1,2:1 f1:1 s f1:1 s gives no t
# the first wrong node is named
x 0 < 0 1 select 1 ; u ; f0:1,2:1 t s gives no f
x 0 < 0 1 select 1 ; u ; t t s gives no t";

/// The stated bound and the computed form are always 1.
const QUESTIONS: &str = "\
# the denied goal is the row 1 of the left branch, and the row 2 of each branch on the right
x 1 <= 1 x 2 <= 1 1 select select 1 ; i ; f1:1 f2:1 f2:1 s s gives yes
x 1 <= 1 x 2 <= 1 1 select select 1 ; i ; f1:1 f1:1 f2:1 s s gives no ft
x 1 <= 1 x 2 <= 1 1 select select 1 ; i ; f1:1 f2:1 f1:1 s s gives no ff
x 1 <= 1 x 2 <= 1 1 select select 1 ; i ; f1:1 f1:1 f1:1 s s gives no ft
# where a natural number is at most 0 the rows x <= 0 and -x <= 0 add up to 0 <= 0
x 0 <= 1 1 select 1 ; u ; f0:1,2:1 f1:1 s gives no t
# with the denied goal, 0 < 0, it is a contradiction
x 0 <= 1 1 select 1 ; u ; f0:1,1:1,2:1 f1:1 s gives yes";

/// Six comparisons that never hold together: four times (2^62 - 1)^2 is below 2^126, six times is
/// not.
const SUMS: &str = "\
x -4611686018427387903 <= 4611686018427387903 x <= x -4611686018427387903 <= 4611686018427387903 x <= x -4611686018427387903 <= 4611686018427387903 x <= 1 1 select 1 select 1 select 1 select 1 select 1 select 1 ; i ; f0:4611686018427387903,1:4611686018427387903,2:4611686018427387903,3:4611686018427387903 f6:1 s f5:1 s f4:1 s f3:1 s f2:1 s f1:1 s gives yes
x -4611686018427387903 <= 4611686018427387903 x <= x -4611686018427387903 <= 4611686018427387903 x <= x -4611686018427387903 <= 4611686018427387903 x <= 1 1 select 1 select 1 select 1 select 1 select 1 select 1 ; i ; f0:4611686018427387903,1:4611686018427387903,2:4611686018427387903,3:4611686018427387903,4:4611686018427387903,5:4611686018427387903 f6:1 s f5:1 s f4:1 s f3:1 s f2:1 s f1:1 s gives no tttttt";

/// Infinite sides, and products of variables.
const INFINITE: &str = "\
# a goal that holds plainly has no denied goal among its rows
inf 1/2 ;  ; t gives yes
inf 1/2 ;  ; f0:1 gives no
# an upper goal asks that the stated form is at least the found one, a lower goal that it is at most that
1/2 inf ;  ; t gives no
1/2 inf ;  ; f0:1 gives no
lower 1/2 inf ;  ; t gives yes
# a form with a product that is never asked for
inf true 1 x y *1 select ; rr ; t gives no
inf true 1 x y *1 select ; rr ; f0:1 gives no
inf true 1 x y *1 select ; rr ; t t s gives no";

/// The first goal holds for all integers and fails at a fraction: y is at most 2x, at most 2 - 2x
/// and at least 1.
const SPLITS: &str = "\
y x scale:2 <= y 2 x scale:2 - <= and 1 y <= and 0 1 select 1 ; ii ; f0:1,2:1,3:2 f1:1,2:1,3:2 i0:0 f3:1 s f2:1 s f1:1 s gives yes
# at another number, with the halves exchanged, of the other variable
y x scale:2 <= y 2 x scale:2 - <= and 1 y <= and 0 1 select 1 ; ii ; f0:1,2:1,3:2 f1:1,2:1,3:2 i0:1 f3:1 s f2:1 s f1:1 s gives no tttt
y x scale:2 <= y 2 x scale:2 - <= and 1 y <= and 0 1 select 1 ; ii ; f0:1,2:1,3:2 f1:1,2:1,3:2 i0:-1 f3:1 s f2:1 s f1:1 s gives no tttf
y x scale:2 <= y 2 x scale:2 - <= and 1 y <= and 0 1 select 1 ; ii ; f1:1,2:1,3:2 f0:1,2:1,3:2 i0:0 f3:1 s f2:1 s f1:1 s gives no tttt
y x scale:2 <= y 2 x scale:2 - <= and 1 y <= and 0 1 select 1 ; ii ; f2:1,3:1 f1:1,2:1,3:2 i1:0 f3:1 s f2:1 s f1:1 s gives no tttf
# a variable of type UInt or Int, and none else
1/2 1/2 ; u ; f1:1 f1:1 i0:0 gives yes
1/2 1/2 ; i ; f1:1 f1:1 i0:-7 gives yes
1/2 1/2 ; r ; f1:1 f1:1 i0:0 gives no
1/2 1/2 ; b ; f1:1 f1:1 i0:0 gives no
1/2 1/2 ; u ; f1:1 f1:1 i1:0 gives no
# one after another
1/2 1/2 ; ui ; f2:1 f2:1 i1:3 f1:1 i0:0 gives yes
1/2 1/2 ; ui ; f2:1 f1:1 i1:3 f1:1 i0:0 gives no tf
1/2 1/2 ; ui ; f2:1 f2:1 i1:3 f0:1 i0:0 gives no f
# before the last question, and where the goal holds plainly
x 0 < 0 1 select 1 ; u ; f1:1 f1:1 i0:0 gives no
inf 1/2 ; u ; f1:1 f1:1 i0:0 gives no
# there is no question behind it, and the goal doesn't hold plainly there
1/2 1/2 ; u ; f1:1 f1:1 s f1:1 i0:0 gives no t
1/2 1/2 ; u ; f1:1 t i0:0 gives no f
# where a number of a half reaches 2^62 there are no rows
1/2 1/2 ; i ; f1:1 f1:1 i0:4611686018427387902 gives yes
1/2 1/2 ; i ; f1:1 f1:1 i0:4611686018427387903 gives no f
1/2 1/2 ; i ; f1:1 f1:1 i0:4611686018427387904 gives no t
1/2 1/2 ; i ; f1:1 f1:1 i0:-9223372036854775808 gives no t";

#[test]
fn checked_certificates(rt: HostRuntime) -> Result<(), AllocError> {
    check_texts(
        &rt,
        Kind::Check,
        &[HALVES, BELOW_ZERO, QUESTIONS, SUMS, INFINITE, SPLITS],
    )
}
