//! The rows of paths, worked out by hand.

use crate::kinds::{Kind, check_texts};
use std::alloc::AllocError;

/// The rows of the answers, then the denied goal, then the signs of the unsigned variables that
/// occur.
const ROWS: &str = "\
# a natural number below 0, where 0 is stated and 1 is found: x + 1 <= 0, then the denied goal -1 < 0, and then -x <= 0
x 0 < 0 1 select true [] ; u ; t ; + gives 1x0 1 <=0 -1 <0 -1x0 0 <=0
x 0 < 0 1 select true [] ; u ; t gives 1x0 1 <=0 -1x0 0 <=0
# 1 is stated: the denied goal is 0 < 0, and the denial of x < 0 is -x <= 0
x 0 < 0 1 select true [] ; u ; f ; + gives -1x0 0 <=0 0 <0 -1x0 0 <=0
# no denied goal before the end
x 0 < 0 1 select true [] ; u ; ; + gives
# the difference of 1/(2^31 - 1) and 1/(2^61 - 1) has a denominator above 2^62
x 0 < 1/2147483647 1 select 1 scale:1/2305843009213693951 ; u ; t ; + gives bits
x 0 < 1/2147483647 1 select 1 scale:1/2305843009213693951 ; u ; t gives 1x0 1 <=0 -1x0 0 <=0
# 1 - 1/(2^61 - 1) is above 0
x 0 < 1/2147483647 1 select 1 scale:1/2305843009213693951 ; u ; f ; + gives -1x0 0 <=0 1 <0 -1x0 0 <=0";

/// Only the UInt and UReal variables that occur get a row `-x <= 0`, in the order of their numbers.
const SIGNS: &str = "\
# x <= y and its denial, y < x
x y min ; iu gives
x y min ; iu ; t gives 1x0 -1x1 0 <=0 -1x1 0 <=0
x y min ; iu ; f gives -1x0 1x1 1 <=0 -1x1 0 <=0
x y min ; ru ; t gives 1x0 -1x1 0 <=0 -1x0 0 <=0 -1x1 0 <=0
# with a UReal the denial stays strict
x y min ; ru ; f gives -1x0 1x1 0 <0 -1x0 0 <=0 -1x1 0 <=0
# y doesn't occur in x <= 3/2, and 3/2 < x is 2 <= x
x scale:2 3 <= embed ; uu ; t gives 1x0 -1 <=0 -1x0 0 <=0
x scale:2 3 <= embed ; uu ; f gives -1x0 2 <=0 -1x0 0 <=0";

/// One row for each comparison, in their order, and none for a Boolean: b and x = y, for two Ints.
const ORDER: &str = "\
lower b2 x y = and [] inf ; iib ; t ; + gives
lower b2 x y = and [] inf ; iib ; ttt gives 1x0 -1x1 0 <=0 -1x0 1x1 0 <=0
lower b2 x y = and [] inf ; iib ; ttf gives 1x0 -1x1 0 <=0 1x0 -1x1 1 <=0
lower b2 x y = and [] inf ; iib ; tf gives -1x0 1x1 1 <=0
# infinity is at least each stated value of a lower goal
lower b2 x y = and [] inf ; iib ; tf ; + gives -1x0 1x1 1 <=0";

/// The denied goal: the stated value is below the computed one; in a lower goal the computed one is
/// below the stated one.
const DENIED: &str = "\
x y ; iu ; ; + gives 1x0 -1x1 1 <=0 -1x1 0 <=0
x y ; iu gives
lower x y ; iu ; ; + gives -1x0 1x1 1 <=0 -1x1 0 <=0
# with a UReal it stays strict
x y ; ri ; ; + gives 1x0 -1x1 0 <0 -1x0 0 <=0";

/// If the smaller side would be infinity, there is no denied goal. If only the other side is
/// infinity, it is `-1 < 0`.
const INFINITE: &str = "\
inf x ; u ; ; + gives
x inf ; u ; ; + gives -1 <0
lower x inf ; u ; ; + gives
lower inf x ; u ; ; + gives -1 <0
inf inf ; u ; ; + gives
lower inf inf ; u ; ; + gives";

/// x/2 + 2^62 - 1 <= 0 has numbers below 2^62, and its row x + 2^63 - 2 <= 0 does not.
const BOUND: &str = "\
x scale:1/2 4611686018427387903 + 0 <= embed ; i ; ; + gives
x scale:1/2 4611686018427387903 + 0 <= embed ; i ; t gives bits
x scale:1/2 4611686018427387903 + 0 <= embed ; i ; f gives bits
# x + 2^62 - 1 <= 0 has numbers below 2^62, and so has its denial
x 4611686018427387903 + 0 <= embed ; i ; t gives 1x0 4611686018427387903 <=0
x 4611686018427387903 + 0 <= embed ; i ; f gives -1x0 -4611686018427387902 <=0";

#[test]
fn rows_of_paths(rt: HostRuntime) -> Result<(), AllocError> {
    check_texts(
        &rt,
        Kind::Rows,
        &[ROWS, SIGNS, ORDER, DENIED, INFINITE, BOUND],
    )
}
