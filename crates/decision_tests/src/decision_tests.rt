//! Decisions of goals, worked out by hand.

use crate::kinds::{Kind, check_texts};
use std::alloc::AllocError;
use test_lines::write_multiples;

/// For a proved goal, the number of leaves of its certificate, and whether it is accepted;
/// otherwise the state in which the goal fails, or the cause.
const COMPARISONS: &str = "\
# the sum of the truths of so many comparisons with 0 is at least 0
v2 0 <= [] v1 0 <= [] v0 0 <= [] 0 + + + 0 ; iii gives proved 8 yes
v12 0 <= [] v11 0 <= [] v10 0 <= [] v9 0 <= [] v8 0 <= [] v7 0 <= [] v6 0 <= [] v5 0 <= [] v4 0 <= [] v3 0 <= [] v2 0 <= [] v1 0 <= [] v0 0 <= [] 0 + + + + + + + + + + + + + 0 ; iiiiiiiiiiiii gives cells 4097";

/// Decisions of goals with Booleans.
const BOOLEANS: &str = "\
b2 [] b1 [] b0 [] 0 + + + 0 ; bbb gives proved 8 yes
b11 [] b10 [] b9 [] b8 [] b7 [] b6 [] b5 [] b4 [] b3 [] b2 [] b1 [] b0 [] 0 + + + + + + + + + + + + 0 ; bbbbbbbbbbbb gives proved 4096";

/// A decision of a goal with one Boolean more.
const MORE: &str = "\
b12 [] b11 [] b10 [] b9 [] b8 [] b7 [] b6 [] b5 [] b4 [] b3 [] b2 [] b1 [] b0 [] 0 + + + + + + + + + + + + + 0 ; bbbbbbbbbbbbb gives cells 4097";

/// Decisions of goals with few cells.
const FEW: &str = "\
# a later false cell has a point
b2 y x x + <= x x + y + 2 <= and 1 y <= and 0 1 select 0 select 1 ; iib gives fails at 0 0 false
# 2^62, and a false cell before it
4611686018427387904 0 ;  gives bits
4611686018427387903 0 ;  gives proved 1 yes
b0 0 4611686018427387904 select 1 ; b gives bits
# infinity, and a point with the truths of its cell
inf x ; r gives proved 1 yes
inf inf ;  gives proved 1 yes
x inf ; r gives fails at 0
b0 0 1 select 1 ; b gives fails at true
# an end that no state reaches; where the row of its denied goal reaches the bound
x 0 < 0 1 select 1 ; u gives proved 2 yes
x 0 < 1/2147483647 1 select 1/2305843009213693951 ; u gives bits
# a product of two variables
x y *5 0 ; rr gives nonlinear at 5..6";

/// Decisions of goals for which the greedy choice finds no integer for a variable.
const SPLITS: &str = "\
# where y <= 2x, 2x + y <= 2 and 1 <= y: y takes 1, and x is 1/2 then; it is at most 0 or at least 1
y x x + <= x x + y + 2 <= and 1 y <= and 0 1 select 1 ; ii gives proved 5 yes
# where 2x = 2y + 1 both are split four times in turn
x x + y y + v2 + <= y y + v2 + x x + <= and v2 1 <= and 1 v2 <= and 0 1 select 1 ; uuu gives broken x0 [9/2 9/2] x1 4
# where 2x = 3y: the first half of a piece has no whole point, the second one has
x x + y y y + + <= y y y + + x x + <= and 0 x < and 0 1 select 1 ; uu gives fails at 3 2
x x + y y y + + <= y y y + + x x + <= and 0 x < and x 3 < and 0 1 select 1 ; uu gives proved 8 yes
# a cell that breaks before one with a point, and behind it
x x + y y + v2 + <= y y + v2 + x x + <= and v2 1 <= and 1 v2 <= and 0 x 3 <= 3 x <= and y 5 <= and 5 y <= and 1/2 1 select select 1 ; uuu gives fails at 3 5 0
x 3 <= 3 x <= and y 5 <= and 5 y <= and 0 x x + y y + v2 + <= y y + v2 + x x + <= and v2 1 <= and 1 v2 <= and 1/2 1 select select 1 ; uuu gives fails at 3 5 0
# the same of signed numbers
x x + y y + v2 + <= y y + v2 + x x + <= and 1 v2 <= and v2 1 <= and 0 1 select 1 ; iii gives broken x0 [-7/2 -7/2] x1 -4";

/// Decisions of goals with comparisons that the path has already answered.
const REPEATED: &str = "\
# thrice the same: two cells, and on the way to each of them two sides are dropped
3 x 1 <= [] x 1 <= [] x 1 <= [] + + ; u gives proved 6 yes
2 x 1 <= [] x 1 <= [] x 1 <= [] + + ; u gives fails at 0
# of whole numbers 2x <= 3 says the same as x <= 1
3 x 1 <= [] x x + 3 <= [] x 1 <= [] + + ; u gives proved 6 yes
# x < 1 and x <= 1 differ at 1, which makes a third cell
3 x 1 <= [] x 1 < [] x 1 <= [] + + ; u gives proved 7 yes";

/// Certificates of goals that hold.
const CERTIFICATES: &str = "\
# the denied goal stands before the sign of x
x 0 < 0 1 select 1 ; u ; 0 gives sff 0:1 2:1
x 0 < 0 1 select 1 ; u ; 1 gives sff 1:1
# yes and then no to the same question: x <= 1 and 2 <= x
3 x 1 <= [] x 1 <= [] x 1 <= [] + + ; u ; 2 gives sssfffsfsff 0:1 1:1
# at a split of x at 0: the row of the split stands before that of the denied goal
y x x + <= x x + y + 2 <= and 1 y <= and 0 1 select 1 ; ii ; 0 gives sssifffff 0:1 2:1 3:2
y x x + <= x x + y + 2 <= and 1 y <= and 0 1 select 1 ; ii ; 1 gives sssifffff 1:1 2:1 3:2
# a goal that holds plainly
inf x ; r ; 0 gives t
inf inf ;  ; 0 gives t";

#[test]
fn cells_of_comparisons(rt: HostRuntime) -> Result<(), AllocError> {
    check_texts(&rt, Kind::Decision, &[COMPARISONS])
}

#[test]
fn cells_of_booleans(rt: HostRuntime) -> Result<(), AllocError> {
    check_texts(&rt, Kind::Decision, &[BOOLEANS])
}

#[test]
fn too_many_cells(rt: HostRuntime) -> Result<(), AllocError> {
    check_texts(&rt, Kind::Decision, &[MORE])
}

#[test]
fn decisions(rt: HostRuntime) -> Result<(), AllocError> {
    check_texts(&rt, Kind::Decision, &[FEW])?;
    check_texts(&rt, Kind::Decision, &[SPLITS])?;
    check_texts(&rt, Kind::Decision, &[REPEATED])?;
    check_texts(&rt, Kind::Certificate, &[CERTIFICATES])
}

/// Writes a goal whose stated bound is 0 if `i*y + z <= x` for each i from 1 to 65 and
/// `x + 66*j*y + z <= 0` for each j from 1 to 64, and 1 otherwise.
fn write_crossing(text: &mut String) -> Result<(), AllocError> {
    text.push_str("true ")?;
    write_multiples(text, 65, 1, "", " y * v2 + x <= and ")?;
    write_multiples(text, 64, 66, "x ", " y * v2 + + 0 <= and ")?;
    text.push_str("0 1 select 1 ; ")
}

/// 65 lower and 64 upper bounds of x make 4,160 rows. If y and z are not negative, two of the
/// bounds imply the others.
#[test]
fn rows_that_are_too_many(rt: HostRuntime) -> Result<(), AllocError> {
    let mut free = String::new(rt.alloc());
    write_crossing(&mut free)?;
    free.push_str("iii gives rows 1 4160")?;
    let mut unsigned = String::new(rt.alloc());
    write_crossing(&mut unsigned)?;
    unsigned.push_str("iuu gives fails at 0 0 0")?;
    check_texts(&rt, Kind::Decision, &[free.as_str(), unsigned.as_str()])
}
