//! Runs of procedures under scripts, over the devices in memory.

use heyvl_io::{MemSink, MemSource};
use heyvl_tool::{Outcome, run_tool};
use std::alloc::{AllocError, Global};
use std::fmt::Write;
use test_lines::{calls_of, cut, write_bytes};

/// The geometric loop.
const GEO: &str =
    "coproc geo(init_c: UInt) -> (c: UInt) pre init_c + 1 post c { c = init_c var cont: Bool = true @invariant(ite(cont, c + 1, c)) while cont { var stop: Bool = flip(0.5) if stop { cont = false } else { c = c + 1 } } }";

/// Each run splits into 256 in every second step, and these are merged to the same 256
/// configurations each time.
const MANY: &str =
    "coproc many() -> (x: UInt) pre 0 post 0 { @invariant(0) while true { x = unif(1, 256) } }";

/// One draw more makes more configurations than a list may have.
const WIDE: &str =
    "coproc wide() -> (x: UInt, y: UInt, z: UInt) pre 0 post 0 { x = unif(1, 256) y = unif(1, 256) z = unif(1, 2) }";

/// A coin without an end: after n flips, 2^n runs of two configurations.
const COINS: &str =
    "coproc coins() -> (x: Bool) pre 0 post 0 { @invariant(0) while true { x = flip(1/2) } }";

/// A draw that yields the same value in two of three parts, and an assignment after which all parts
/// are the same.
const PARTS: &str =
    "coproc parts() -> (x: UInt) pre 9 post x { x = choose { 1/4: 1, 1/2: 2, 1/4: 1 } x = 5 }";

/// Rewards that distinguish runs in the same state.
const PAID: &str =
    "coproc paid() -> (b: Bool) pre 9 post 0 { b = flip(1/2) if b { reward 4 } else { reward 2 } b = true reward 1 }";

/// A recursion without an end, with two values a call.
const REC: &str = "coproc rec(x: UInt) -> (y: UInt) pre 0 post 0 { y = rec(x) }";

/// A reward of 2^127 - 1, and one more.
const BIG: &str =
    "coproc big() -> () pre 0 post 0 { reward 170141183460469231731687303715884105727 reward 1 }";

/// A value that is chosen after a flip, and should match it.
const GUESS: &str =
    "coproc guess() -> (x: Bool, y: Bool) pre 1/2 post [x == y] { x = flip(1/2) cohavoc y }";

/// A value that is chosen after a flip, and counts alone.
const SAID: &str = "coproc said() -> (x: Bool, y: Bool) pre 1 post [y] { x = flip(1/2) cohavoc y }";

/// Two decisions.
const TWO: &str =
    "coproc two() -> (x: UInt, y: UInt) pre 99 post x + 10 * y { cohavoc x cohavoc y }";

/// A nondeterministic choice.
const PICK: &str = "coproc pick() -> (x: UInt) pre 2 post x { if \\cup { x = 1 } else { x = 2 } }";

/// Equal states after different numbers of decisions: the next decision differs.
const APART: &str =
    "coproc apart() -> (x: UInt, b: Bool) pre 9 post x { b = flip(1/2) if b { cohavoc x } else { x = 5 } b = true cohavoc x }";

/// A call with two outputs, of which the scheduler chooses the second one.
const CALL: &str =
    "coproc main() -> (x: UInt, y: UInt) pre 99 post x + 10 * y { y, x = f(3) } coproc f(u: UInt) -> (p: UInt, q: UInt) pre 0 post 99 { p = u + 1 }";

/// Two loops.
const LOOPS: &str =
    "coproc loops(n: UInt) -> () pre 9 post 0 { var i: UInt = n @invariant(9) while i > 0 { i = i - 1 reward 1 } i = 1 @invariant(9) while i > 0 { i = i - 1 } }";

/// A loop of a called procedure, and one of the procedure itself, which calls itself once.
const INNER: &str =
    "coproc outer(n: UInt) -> () pre 9 post 0 { var i: UInt = n @invariant(9) while i > 0 { i = 0 } if n > 0 { f() outer(n - 1) } else { } } coproc f() -> () pre 9 post 0 { var j: UInt = 2 @invariant(9) while j > 0 { j = j - 1 } }";

/// A proc with `@wlp` that terminates or runs forever.
const WEAK: &str =
    "@wlp proc weak() -> (b: Bool) pre 1 post [b] { b = flip(1/3) if b { @invariant(1) while b { } } else { } }";

const COIN: &str = "coproc coin() -> (b: Bool) pre 1/2 post [b] { b = flip(1/2) }";

/// No program, as it has an assumption.
const VAC: &str = "coproc vac() -> () pre 0 post 5 { coassume ?(true) }";

/// Programs that reach two procedures that are no programs: `b`, then `vac`.
const REACH: &str =
    "coproc a() -> () pre 0 post 0 { c() } coproc b() -> () pre 0 post 0 coproc c() -> () pre 0 post 0 { b() vac() } coproc vac() -> () pre 0 post 5 { coassume ?(true) }";

/// Returns the file with this name.
fn file_named(name: &str) -> &'static str {
    match name {
        "geo" => GEO,
        "many" => MANY,
        "wide" => WIDE,
        "coins" => COINS,
        "parts" => PARTS,
        "paid" => PAID,
        "rec" => REC,
        "big" => BIG,
        "guess" => GUESS,
        "said" => SAID,
        "two" => TWO,
        "pick" => PICK,
        "apart" => APART,
        "call" => CALL,
        "loops" => LOOPS,
        "inner" => INNER,
        "weak" => WEAK,
        "coin" => COIN,
        "vac" => VAC,
        "reach" => REACH,
        "cut off" => "coproc coin(",
        "unknown" => "coproc a() -> () { x = 1 }",
        _ => "",
    }
}

/// Returns the bytes of a text, with a line feed for each bar.
fn bytes_of(alloc: Global, text: &str) -> Result<Vec<u8>, AllocError> {
    let mut bytes = Vec::new(alloc);
    for byte in text.bytes() {
        bytes.push(if byte == b'|' { b'\n' } else { byte })?;
    }
    Ok(bytes)
}

fn named(alloc: Global, name: &str, bytes: Vec<u8>) -> Result<(String, Vec<u8>), AllocError> {
    Ok((String::from_str(alloc, name)?, bytes))
}

/// Returns a source whose names `f` and `s` have these bytes, of which a read returns at most 64
/// bytes, and these calls fail.
pub fn source_of(
    alloc: Global,
    file: &str,
    script: Vec<u8>,
    fail: Vec<u64>,
) -> Result<MemSource, AllocError> {
    let mut files = Vec::new(alloc);
    files.push(named(alloc, "f", bytes_of(alloc, file)?)?)?;
    files.push(named(alloc, "s", script)?)?;
    Ok(MemSource::new(files, 64, fail))
}

/// Runs a procedure of the file `f` under the script `s`.
fn run_by(
    alloc: Global,
    procedure: &str,
    source: &mut MemSource,
    sink: &mut MemSink,
) -> Result<Outcome, AllocError> {
    let mut words = Vec::new(alloc);
    for word in ["run", "f", procedure, "s"] {
        words.push(String::from_str(alloc, word)?)?;
    }
    Ok(run_tool(alloc, &words, source, sink))
}

/// Writes the status, the number of answers if there are any, and the bytes that were written.
fn write_outcome(outcome: &Outcome, sink: &MemSink, text: &mut String) -> Result<(), AllocError> {
    let status = outcome.status;
    let answers = outcome.answers.len();
    write!(text, "{status} ")?;
    if answers > 0 {
        write!(text, "{answers} answers ")?;
    }
    write_bytes(&sink.bytes, text)
}

/// Runs a procedure, and writes the result.
fn write_run_of(
    alloc: Global,
    procedure: &str,
    source: &mut MemSource,
    text: &mut String,
) -> Result<(), AllocError> {
    let mut sink = MemSink::new(alloc, 256, 64, Vec::new(alloc))?;
    let outcome = run_by(alloc, procedure, source, &mut sink)?;
    write_outcome(&outcome, &sink, text)
}

/// `file ; procedure ; script`: writes the status of its run and the bytes that were written.
pub fn write_run(alloc: Global, asked: &str, text: &mut String) -> Result<(), AllocError> {
    let (file, rest) = cut(asked, ';');
    let (procedure, script) = cut(rest, ';');
    let script = bytes_of(alloc, script)?;
    let mut source = source_of(alloc, file_named(file), script, Vec::new(alloc))?;
    write_run_of(alloc, procedure, &mut source, text)
}

/// Runs the coin over a source, and writes the fault, the number of names that were started, the
/// status and the bytes that were written.
pub fn write_refused(
    alloc: Global,
    source: &mut MemSource,
    text: &mut String,
) -> Result<(), AllocError> {
    let mut sink = MemSink::new(alloc, 64, 64, Vec::new(alloc))?;
    let outcome = run_by(alloc, "coin", source, &mut sink)?;
    let fault = &outcome.fault;
    let order = source.order;
    write!(text, "{fault:?} {order:?} ")?;
    write_outcome(&outcome, &sink, text)
}

/// `calls`: writes the result of a run of the coin if these calls of the source fail.
pub fn write_failure(alloc: Global, asked: &str, text: &mut String) -> Result<(), AllocError> {
    let script = bytes_of(alloc, "steps 1|")?;
    let mut source = source_of(alloc, COIN, script, calls_of(alloc, asked)?)?;
    write_refused(alloc, &mut source, text)
}
