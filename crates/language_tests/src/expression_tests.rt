//! Expressions with their trees and places, worked out by hand.

use crate::kinds::{Kind, check_texts};
use std::alloc::AllocError;

/// Atoms.
const ATOMS: &str = "\
a gives a 0..1
7 gives 7 0..1
1.5 gives 15e1 0..3
true gives true 0..4
false gives false 0..5
\\infty gives \\infty 0..6
(a) gives (a) 0..3
[a] gives [a] 0..3
?(a) gives ?(a) 0..4
ite(a, b, c) gives ite(a, b, c) 0..12";

/// Prefix operators.
const PREFIXES: &str = "\
!a gives {!a} 0..2
- a gives {-a} 0..3
~~a gives {~{~a}} 0..3
!-~a gives {!{-{~a}}} 0..4
-a * b gives {{-a} * b} 3..4
!a && b gives {{!a} && b} 3..5
a * -b gives {a * {-b}} 2..3";

/// Grouping of operators.
const GROUPING: &str = "\
a - b - c gives {{a - b} - c} 6..7
a / b * c gives {{a / b} * c} 6..7
a + b * c gives {a + {b * c}} 2..3
a * b + c gives {{a * b} + c} 6..7
a ==> b ==> c gives {a ==> {b ==> c}} 2..5
a <== b <== c gives {a <== {b <== c}} 2..5
a ==> b <== c gives {a ==> {b <== c}} 2..5
a \\cup b \\cup c gives {{a \\cup b} \\cup c} 9..13
a \\cap b \\cap c gives {{a \\cap b} \\cap c} 9..13
a \\cup b \\cap c gives {a \\cup {b \\cap c}} 2..6
a \\cap b \\cup c gives {{a \\cap b} \\cup c} 9..13
a || b || c gives {{a || b} || c} 7..9
a && b && c gives {{a && b} && c} 7..9
a || b && c gives {a || {b && c}} 2..4
a && b || c gives {{a && b} || c} 7..9
a \\cap b || c gives {a \\cap {b || c}} 2..6
a < b + c gives {a < {b + c}} 2..3
a + b < c gives {{a + b} < c} 6..7
a && b == c gives {a && {b == c}} 2..4
a == b && c gives {{a == b} && c} 7..9";

/// Comparisons.
const COMPARISONS: &str = "\
a != b gives {a != b} 2..4
a <= b gives {a <= b} 2..4
a > b gives {a > b} 2..3
a >= b gives {a >= b} 2..4";

/// Quantifiers, and expressions in parentheses.
const NESTING: &str = "\
sup x: UInt. a + b gives {sup x: UInt. {a + b}} 0..18
inf y: Bool. sup x: Int. y gives {inf y: Bool. {sup x: Int. y}} 0..26
a + (sup x: Real. x) gives {a + ({sup x: Real. x})} 2..3
(a + b) * c gives {({a + b}) * c} 8..9
((a)) gives ((a)) 0..5
[a < b] + [b < c] gives {[{a < b}] + [{b < c}]} 8..9";

#[test]
fn reads_expressions(rt: HostRuntime) -> Result<(), AllocError> {
    check_texts(
        &rt,
        Kind::Tree,
        &[ATOMS, PREFIXES, GROUPING, COMPARISONS, NESTING],
    )
}
