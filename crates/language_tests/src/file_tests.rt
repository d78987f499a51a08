//! Texts of files with the procedures that they spell, worked out by hand.

use crate::kinds::{Kind, check_texts};
use std::alloc::AllocError;

/// Procedures with the expressions of their clauses, the number of statements of their bodies, and
/// the places; then the first statement.
const FILES: &str = "\
proc f() -> () gives proc f() -> () pre post 0..14;
 gives
/* a */ coproc f() -> () {} gives coproc f() -> () pre post {0} 8..27;
@wp coproc g(x: Int, y: EUReal) -> (z: Bool) pre x post z pre y {} gives @wp coproc g(x: Int 13..19, y: EUReal 21..30, ) -> (z: Bool 36..43, ) pre x y post z {0} 0..66;
@wlp proc f() -> () @ert proc f() -> () gives @wlp proc f() -> () pre post 0..19; @ert proc f() -> () pre post 20..39;
proc f() -> () post a post b gives proc f() -> () pre post a b 0..28;
proc wp(ert: Real) -> () gives proc wp(ert: Real 8..17, ) -> () pre post 0..24;
@ert coproc f(x: UInt, y: Bool) -> (z: Int) post a pre b { } gives @ert coproc f(x: UInt 14..21, y: Bool 23..30, ) -> (z: Int 36..42, ) pre b post a {0} 0..60;
proc f() -> () { f() ; ; x, y = f(a, b) var z: Int var w: Bool = true; validate } coproc g() -> () gives proc f() -> () pre post {5} 0..81; coproc g() -> () pre post 82..98; assign 17..20;
coproc f() -> () { if a { x = 1 } else if b { x = 2 } else { x = 3 } if \\cap { } else { tick 1 } @invariant(a) @ranking(1, b) while c { x = flip(1/2); y = choose { 1/2: a, 1/2: b } } havoc x, y coassume a } gives coproc f() -> () pre post {5} 0..206; if 2 1 19..68; assign 26..31;";

/// A statement ends with its last token. The semicolon after it does not belong to it.
const ENDS: &str =
    "proc f() -> () { x = 1 ; } gives proc f() -> () pre post {1} 0..26; assign 17..22;";

/// An `else` belongs to the `if` whose block it follows.
const ELSE: &str =
    "proc f() -> () { if a { if b { } else { x = 1 } } } gives proc f() -> () pre post {1} 0..51; if 1 0 17..49; if 1 1 24..47;";

/// An `if` in a loop.
const LOOP: &str =
    "@ert coproc p(a: Bool) -> () { @invariant(1) while true { if a { } else { x = flip(1) } } } gives @ert coproc p(a: Bool 14..21, ) -> () pre post {1} 0..91; while 1 1 31..89; if 1 1 58..87;";

#[test]
fn reads_files(rt: HostRuntime) -> Result<(), AllocError> {
    check_texts(&rt, Kind::File, &[FILES, ENDS, ELSE, LOOP])
}

#[test]
fn copies_files(rt: HostRuntime) -> Result<(), AllocError> {
    check_texts(&rt, Kind::Copy, &[FILES, LOOP])
}
