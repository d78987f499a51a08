//! The comparisons of goals, and the values at the ends of their paths, worked out by hand.

use crate::kinds::{Kind, check_texts};
use std::alloc::AllocError;

/// 0, infinity and variables, in operators that compare nothing.
const UNASKED: &str = "\
# nothing is asked
x y + gives = 1x0 1x1 0
x y + ; t gives none
x -3 + gives = 1x0 -3
x -3 + ; t gives none
x inf + gives = inf
x inf + ; t gives none
inf x + gives = inf
inf x + ; t gives none
inf inf + gives = inf
inf inf + ; t gives none
x y - gives = 1x0 -1x1 0
x y - ; t gives none
x x - gives = 0
x x - ; t gives none
3 x * gives = 3x0 0
3 x * ; t gives none
y -2 * gives = -2x1 0
y -2 * ; t gives none
0 x * gives = 0
0 x * ; t gives none
0 inf * gives = 0
0 inf * ; t gives none
inf 0 * gives = 0
inf 0 * ; t gives none
2 inf * gives = inf
2 inf * ; t gives none
inf 2 * gives = inf
inf 2 * ; t gives none
inf inf * gives = inf
inf inf * ; t gives none
x inf min gives = 1x0 0
x inf min ; t gives none
inf y min gives = 1x1 0
inf y min ; t gives none
inf inf min gives = inf
inf inf min ; t gives none
x inf max gives = inf
x inf max ; t gives none
inf y max gives = inf
inf y max ; t gives none
inf inf max gives = inf
inf inf max ; t gives none
x inf imply gives = inf
x inf imply ; t gives none
inf y imply gives = 1x1 0
inf y imply ; t gives none
inf inf imply gives = inf
inf inf imply ; t gives none
x inf coimply gives = inf
x inf coimply ; t gives none
inf y coimply gives = 0
inf y coimply ; t gives none
inf inf coimply gives = 0
inf inf coimply ; t gives none
x inf cut gives = 0
x inf cut ; t gives none";

/// The comparison, the value if it holds, and the value if it fails.
const COMPARING: &str = "\
# y <= x
x y cut gives -1x0 1x1 0 <=0
x y cut ; t gives = 1x0 -1x1 0
x y cut ; f gives = 0
x y cut ; tt gives none
# 3 <= x
x 3 cut gives -1x0 3 <=0
x 3 cut ; t gives = 1x0 -3
x 3 cut ; f gives = 0
x 3 cut ; tt gives none
# x <= 0, since the other factor is infinity
x inf * gives 1x0 0 <=0
x inf * ; t gives = 0
x inf * ; f gives = inf
x inf * ; tt gives none
inf y * gives 1x1 0 <=0
inf y * ; t gives = 0
inf y * ; f gives = inf
inf y * ; tt gives none
# x <= y
x y min gives 1x0 -1x1 0 <=0
x y min ; t gives = 1x0 0
x y min ; f gives = 1x1 0
x y min ; tt gives none
x y max gives 1x0 -1x1 0 <=0
x y max ; t gives = 1x1 0
x y max ; f gives = 1x0 0
x y max ; tt gives none
x y imply gives 1x0 -1x1 0 <=0
x y imply ; t gives = inf
x y imply ; f gives = 1x1 0
x y imply ; tt gives none
2 y imply gives -1x1 2 <=0
2 y imply ; t gives = inf
2 y imply ; f gives = 1x1 0
2 y imply ; tt gives none
# y <= x
x y coimply gives -1x0 1x1 0 <=0
x y coimply ; t gives = 0
x y coimply ; f gives = 1x1 0
x y coimply ; tt gives none
2 y coimply gives 1x1 -2 <=0
2 y coimply ; t gives = 0
2 y coimply ; f gives = 1x1 0
2 y coimply ; tt gives none";

/// A comparison without variables is answered at once.
const CONSTANTS: &str = "\
# nothing is asked
5 2 cut gives = 3
5 2 cut ; t gives none
2 5 cut gives = 0
2 5 cut ; t gives none
2 2 cut gives = 0
2 2 cut ; t gives none
2 5 min gives = 2
2 5 min ; t gives none
5 2 min gives = 2
5 2 min ; t gives none
2 5 max gives = 5
2 5 max ; t gives none
5 2 max gives = 5
5 2 max ; t gives none
2 5 imply gives = inf
2 5 imply ; t gives none
2 2 imply gives = inf
2 2 imply ; t gives none
5 2 imply gives = 2
5 2 imply ; t gives none
5 2 coimply gives = 0
5 2 coimply ; t gives none
2 2 coimply gives = 0
2 2 coimply ; t gives none
2 5 coimply gives = 5
2 5 coimply ; t gives none
# the difference x - x holds no variable
x x cut gives = 0
x x cut ; t gives none
x x min gives = 1x0 0
x x min ; t gives none
x x imply gives = inf
x x imply ; t gives none";

/// Operators of one part.
const PARTS: &str = "\
# multiples, and what validate and covalidate are
x scale:3 gives = 3x0 0
x scale:0 gives = 0
inf scale:3 gives = inf
inf scale:0 gives = 0
x validate gives = 0
x covalidate gives 1x0 0 <=0
0 validate gives = 0
0 covalidate gives = 0
2 validate gives = 0
2 covalidate gives = inf
inf validate gives = inf
inf covalidate gives = inf
x covalidate ; t gives = 0
x covalidate ; f gives = inf
b3 embed gives b3
b3 embed ; t gives = inf
b3 embed ; f gives = 0
b3 [] gives b3
b3 [] ; t gives = 1
b3 [] ; f gives = 0";

/// Comparisons in brackets: 1 if they hold, otherwise 0.
const COMPARISONS: &str = "\
x y <= [] gives 1x0 -1x1 0 <=0
x y <= [] ; t gives = 1
x y <= [] ; f gives = 0
x y < [] gives 1x0 -1x1 0 <0
x y < [] ; t gives = 1
x y < [] ; f gives = 0
# x = y: x <= y, and where that holds, y <= x
x y = [] gives 1x0 -1x1 0 <=0
x y = [] ; t gives -1x0 1x1 0 <=0
x y = [] ; tt gives = 1
x y = [] ; tf gives = 0
x y = [] ; f gives = 0
# known without variables
2 2 <= [] gives = 1
2 2 < [] gives = 0
2 3 < [] gives = 1
3 2 <= [] gives = 0
2 2 = [] gives = 1
3 2 = [] gives = 0
x x < [] gives = 0";

/// Conditions, and the order of their comparisons.
const CONDITIONS: &str = "\
# the parts of a condition are asked from the left, and only where they are needed
b3 b4 and [] gives b3
b3 b4 and [] ; f gives = 0
b3 b4 and [] ; t gives b4
b3 b4 and [] ; tt gives = 1
b3 b4 or [] ; t gives = 1
b3 b4 or [] ; f gives b4
b3 b4 or [] ; ff gives = 0
# both parts of `same` are asked
b3 b4 same [] ; f gives b4
b3 b4 same [] ; ff gives = 1
b3 b4 same [] ; tf gives = 0
b3 not [] gives b3
b3 not [] ; t gives = 0
b3 b4 b5 ite [] gives b3
b3 b4 b5 ite [] ; t gives b4
b3 b4 b5 ite [] ; f gives b5
b3 b4 b5 ite [] ; tt gives = 1
b3 b4 b5 ite [] ; ff gives = 0
# a constant condition is known
true b4 b5 ite [] gives b4
false b4 and [] gives = 0
true b4 or [] gives = 1
# a form is chosen, and the other one isn't looked at
b3 inf x y min select ; t gives = inf
b3 inf x y min select ; f gives 1x0 -1x1 0 <=0
b3 inf x y min select ; ff gives = 1x1 0
# a Boolean variable is asked once in a goal
b3 b3 and [] ; t gives = 1
b3 b3 not and [] ; t gives = 0
# the found form knows what the stated form has asked
b3 [] b3 b4 and [] gives b3
b3 [] b3 b4 and [] ; t gives b4
b3 [] b3 b4 and [] ; f gives = 0
# a comparison is asked each time that it is needed: x <= y twice, with two answers
x y <= x y <= and [] x ; t gives 1x0 -1x1 0 <=0
x y <= x y <= and [] x ; tt gives = 1
x y <= x y <= and [] x ; tf gives = 0
# the stated form comes first
x y min b4 [] gives 1x0 -1x1 0 <=0
x y min b4 [] ; t gives b4
x y min b4 [] ; tf gives = 1x0 0
# both parts of a product are evaluated
0 x y max * gives 1x0 -1x1 0 <=0";

/// The result is `bits` exactly at 2^62, for a value of a node and for a difference that is
/// compared.
const BOUND: &str = "\
4611686018427387903 0 + gives = 4611686018427387903
4611686018427387904 -1 + gives bits
4611686018427387903 1 + gives bits
-4611686018427387903 -1 + gives bits
-4611686018427387903 x + gives = 1x0 -4611686018427387903
4611686018427387903 x * gives = 4611686018427387903x0 0
0 4611686018427387904 * gives bits
2 2305843009213693952 * gives bits
inf 4611686018427387904 * gives bits
# the difference of a comparison without variables: 1 - -(2^62 - 1)
1 -4611686018427387903 min gives bits
0 -4611686018427387903 min gives = -4611686018427387903
-4611686018427387903 1 max gives bits
-1 4611686018427387903 cut gives bits
4611686018427387903 -1 coimply gives bits
# no difference is needed where the other part is infinity
4611686018427387903 inf min gives = 4611686018427387903
# 2^62 times 0 is 0, and times infinity is infinity
x scale:4611686018427387904 gives bits
x scale:4611686018427387903 gives = 4611686018427387903x0 0
0 scale:4611686018427387904 gives = 0
inf scale:4611686018427387904 gives = inf
4611686018427387904 scale:0 gives bits
# a number that is too large tells where it is evaluated, and not where it isn't
b3 4611686018427387904 x select ; f gives = 1x0 0
b3 4611686018427387904 x select ; t gives bits
# a question comes before the bound that is met after it
x y min 4611686018427387903 1 + + gives 1x0 -1x1 0 <=0
x y min 4611686018427387903 1 + + ; t gives bits";

#[test]
fn questions(rt: HostRuntime) -> Result<(), AllocError> {
    check_texts(
        &rt,
        Kind::Question,
        &[
            UNASKED,
            COMPARING,
            CONSTANTS,
            PARTS,
            COMPARISONS,
            CONDITIONS,
            BOUND,
        ],
    )
}
