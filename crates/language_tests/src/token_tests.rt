//! Bytes with their tokens, worked out by hand.

use crate::kinds::{Kind, check_texts};
use crate::token_texts::write_lexed;
use heyvl_places::place_at;
use heyvl_syntax::lex;
use std::alloc::{AllocError, Global};
use std::fmt::Write;
use std::process::Abort;

/// Texts with their tokens, or with the error.
const TEXTS: &str = "\
a\rb gives word a 0..1; word b 2..3;
 gives
\0 gives fault 1 at the bytes 0..1
a \0 gives fault 1 at the bytes 2..3
a#\0 gives fault 1 at the bytes 1..2
ä gives fault 1 at the bytes 0..1
// a gives
// gives
a// gives word a 0..1;
/**/ gives
/***/b gives word b 5..6;
/*/ gives fault 2 at the bytes 0..2
/*/*/ gives
/* a gives fault 2 at the bytes 0..2
a /* b * gives fault 2 at the bytes 2..4
/* /* */ gives
/* /* */ */ gives mark Star 9..10; mark Slash 10..11;
/* // */b gives word b 8..9;
a/b gives word a 0..1; mark Slash 1..2; word b 2..3;
0.50 gives number 5/1 0..4;
1.0 gives number 1/0 0..3;
007 gives number 7/0 0..3;
10 gives number 10/0 0..2;
0.00 gives number 0/0 0..4;
1. gives number 1/0 0..1; mark Dot 1..2;
.5 gives mark Dot 0..1; number 5/0 1..2;
1.5.25 gives number 15/1 0..3; mark Dot 3..4; number 25/0 4..6;
1a gives number 1/0 0..1; word a 1..2;
170141183460469231731687303715884105727 gives number 170141183460469231731687303715884105727/0 0..39;
 170141183460469231731687303715884105728 gives fault 3 at the bytes 1..40
17014118346046923173168730371588410572.8 gives fault 3 at the bytes 0..40
0.00000000000000000000000000000000000001 gives number 1/38 0..40;
0.000000000000000000000000000000000000000 gives fault 3 at the bytes 0..41
0.00000000000000000000000000000000000000 gives number 0/0 0..40;
000000000000000000000000000000000000000001.5 gives number 15/1 0..44;
a<==b gives word a 0..1; mark CoImply 1..4; word b 4..5;
a<=b gives word a 0..1; mark AtMost 1..3; word b 3..4;
a<= =b gives word a 0..1; mark AtMost 1..3; mark Assign 4..5; word b 5..6;
==> gives mark Imply 0..3;
== > gives mark Same 0..2; mark More 3..4;
->- > gives mark Arrow 0..2; mark Minus 2..3; mark More 4..5;
\\cap\\cup \\infty gives key Cap 0..4; key Cup 4..8; key Infty 9..15;
\\capx gives fault 1 at the bytes 0..1
\\cap_ gives fault 1 at the bytes 0..1
# /* 170141183460469231731687303715884105728 gives fault 1 at the bytes 0..1
proc procs _ _1 Sup gives key Proc 0..4; word procs 5..10; word _ 11..12; word _1 13..15; word Sup 16..19;";

/// The keywords.
const KEYS: &str = "\
proc gives key Proc 0..4;
coproc gives key CoProc 0..6;
pre gives key Pre 0..3;
post gives key Post 0..4;
var gives key Var 0..3;
if gives key If 0..2;
else gives key Else 0..4;
while gives key While 0..5;
assert gives key Assert 0..6;
assume gives key Assume 0..6;
coassert gives key CoAssert 0..8;
coassume gives key CoAssume 0..8;
havoc gives key Havoc 0..5;
cohavoc gives key CoHavoc 0..7;
validate gives key Validate 0..8;
covalidate gives key CoValidate 0..10;
reward gives key Reward 0..6;
tick gives key Tick 0..4;
true gives key TrueWord 0..4;
false gives key FalseWord 0..5;
Bool gives key BoolWord 0..4;
Int gives key IntWord 0..3;
UInt gives key UIntWord 0..4;
UReal gives key URealWord 0..5;
EUReal gives key EURealWord 0..6;
Real gives key RealWord 0..4;
ite gives key Ite 0..3;
flip gives key Flip 0..4;
unif gives key Unif 0..4;
choose gives key Choose 0..6;
sup gives key Sup 0..3;
inf gives key Inf 0..3;
\\cap gives key Cap 0..4;
\\cup gives key Cup 0..4;
\\infty gives key Infty 0..6;";

/// The symbols.
const MARKS: &str = "\
( gives mark ParenLeft 0..1;
) gives mark ParenRight 0..1;
{ gives mark BraceLeft 0..1;
} gives mark BraceRight 0..1;
[ gives mark BracketLeft 0..1;
] gives mark BracketRight 0..1;
, gives mark Comma 0..1;
: gives mark Colon 0..1;
; gives mark Semi 0..1;
. gives mark Dot 0..1;
= gives mark Assign 0..1;
== gives mark Same 0..2;
!= gives mark Differ 0..2;
< gives mark Less 0..1;
<= gives mark AtMost 0..2;
<== gives mark CoImply 0..3;
> gives mark More 0..1;
>= gives mark AtLeast 0..2;
+ gives mark Plus 0..1;
- gives mark Minus 0..1;
* gives mark Star 0..1;
/ gives mark Slash 0..1;
&& gives mark AndAnd 0..2;
|| gives mark OrOr 0..2;
! gives mark Bang 0..1;
~ gives mark Tilde 0..1;
==> gives mark Imply 0..3;
-> gives mark Arrow 0..2;
? gives mark Question 0..1;
@ gives mark AtSign 0..1;";

#[test]
fn reads_texts(rt: HostRuntime) -> Result<(), AllocError> {
    check_texts(&rt, Kind::Tokens, &[TEXTS, KEYS, MARKS])
}

/// Bytes with line feeds, or that are not UTF-8, with their tokens.
const ROWS: [(&[u8], &str); 4] = [
    (b" \t\r\n", ""),
    (b"a//\xC3\xA4\xFF\0\nb", "word a 0..1; word b 8..9; "),
    (b"a/*\xC3\xA4\xFF\0*/b", "word a 0..1; word b 9..10; "),
    (b"///* \nb", "word b 6..7; "),
];

fn check_rows(rt: &(impl Abort + AllocGlobal), rows: &[(&[u8], &str)]) -> Result<(), AllocError> {
    let alloc = rt.alloc();
    for (bytes, wanted) in rows {
        let mut found = String::new(alloc);
        write_lexed(alloc, bytes, &mut found)?;
        assert!(rt; found.as_str() == *wanted, "{wanted}");
    }
    Ok(())
}

#[test]
fn reads_rows(rt: HostRuntime) -> Result<(), AllocError> {
    check_rows(&rt, &ROWS)
}

/// Returns the kind of the token that one byte alone is.
fn alone(byte: u8) -> &'static str {
    match byte {
        b' ' | b'\t' | b'\r' | b'\n' => "",
        b'_' | b'a'..=b'z' | b'A'..=b'Z' => "word",
        b'0'..=b'9' => "number",
        b'('
        | b')'
        | b'{'
        | b'}'
        | b'['
        | b']'
        | b','
        | b':'
        | b';'
        | b'.'
        | b'='
        | b'<'
        | b'>'
        | b'+'
        | b'-'
        | b'*'
        | b'/'
        | b'!'
        | b'~'
        | b'?'
        | b'@' => "mark",
        _ => "fault 1 at the bytes 0..1",
    }
}

#[test]
fn reads_each_byte(rt: HostRuntime) -> Result<(), AllocError> {
    let alloc = rt.alloc();
    for byte in 0..=255u8 {
        let mut found = String::new(alloc);
        write_lexed(alloc, &[byte], &mut found)?;
        assert!(rt; found.as_str().starts_with(alone(byte)), "at {byte}");
    }
    Ok(())
}

/// The place of each byte, and of the end.
#[test]
fn shows_places(rt: HostRuntime) -> Result<(), AllocError> {
    let mut found = String::new(rt.alloc());
    for index in 0..7 {
        let place = place_at(b"ab\n\n\xFFc", index);
        write!(found, "{place} ")?;
    }
    assert!(rt; found.as_str() == "1:1 1:2 1:3 2:1 3:1 3:2 3:3 ");
    Ok(())
}

/// Returns the number of tokens of 2^20 equal bytes.
fn count(alloc: Global, byte: u8) -> Result<usize, AllocError> {
    let bytes = vec![in alloc; byte; 1 << 20]?;
    match lex(alloc, &bytes) {
        Ok(tokens) => Ok(tokens.len()),
        Err(_) => Err(AllocError),
    }
}

#[test]
fn reads_long_files(rt: HostRuntime) -> Result<(), AllocError> {
    let alloc = rt.alloc();
    assert!(rt; count(alloc, b'/')? == 0);
    assert!(rt; count(alloc, b'<')? == 1 << 20);
    Ok(())
}
