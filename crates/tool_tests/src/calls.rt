//! Calls of `run_tool` over devices in memory, and the requests of arguments.

use heyvl_io::{MemSink, MemSource};
use heyvl_tool::{Files, Outcome, Settings, run_tool, settings};
use std::alloc::{AllocError, Global};
use std::fmt::Write;
use test_lines::{calls_of, cut, size, write_bytes};

const COIN: &str = "coproc coin() -> (b: Bool) pre 1/2 post [b] { b = flip(1/2) }";

/// The coin with few spaces.
const CLOSE_COIN: &str = "coproc coin()->(b:Bool)pre 0.50 post[b]{b=flip(1/2);}";

/// A coin that is flipped until it shows heads, with a bound on its iterations, and a lower bound
/// for each number of iterations.
const TWO: &str =
    "@wlp proc two() -> (d: Bool) pre 1 post [d] { d = false @invariant(1) @ranking(1, ite(d, 0, 2)) while !d { d = flip(1/2) } } coproc u() -> () pre 2 proc j(d: Bool, m: UInt) -> () pre ite(d, 1, ite(m == 0, 0, 1/2))";

/// A coin whose bound is too low, so that its first flip exceeds it.
const LOW_COIN: &str = "coproc coin() -> (b: Bool) pre 1/3 post [b] { b = flip(1/2) }";

/// A script of one step.
const ONE_STEP: &str = "steps 1\n";

/// The certificate of the coin.
const COIN_CERT: &str = "caesar certificate 1\ngoal 0 main\nf 0:1\nend\n";

/// A goal that needs an integer split.
const GAP: &str =
    "coproc gap(x: Int, y: Int) -> () pre ite(y <= 2*x && y <= 2 - 2*x && 1 <= y, 0, 1) post 1 { }";

/// The certificate of this goal.
const GAP_CERT: &str =
    "caesar certificate 2\ngoal 0 main\ns\ns\ns\ni 0 0\nf 0:1 2:1 3:2\nf 1:1 2:1 3:2\nf 3:1\nf 2:1\nf 1:1\nend\n";

fn file_named(name: &str) -> &'static str {
    match name {
        "coin" => COIN,
        "close coin" => CLOSE_COIN,
        "two" => TWO,
        "low coin" => LOW_COIN,
        "gap" => GAP,
        _ => "",
    }
}

/// Returns the bytes of the second file: a script for `refute`, a certificate for every other
/// command.
fn second_of(words: &str, file: &str) -> &'static str {
    if words.starts_with("refute") {
        ONE_STEP
    } else if file == "gap" {
        GAP_CERT
    } else {
        COIN_CERT
    }
}

/// Reads arguments, with commas between them.
pub fn words_of(alloc: Global, text: &str) -> Result<Vec<String>, AllocError> {
    let mut words = Vec::new(alloc);
    for word in text.split(',') {
        words.push(String::from_str(alloc, word)?)?;
    }
    Ok(words)
}

fn file_of(alloc: Global, name: &str, bytes: &[u8]) -> Result<(String, Vec<u8>), AllocError> {
    let name = String::from_str(alloc, name)?;
    Ok((name, Vec::from_slice(alloc, bytes)?))
}

/// Returns a source whose names `f` and `c` have these bytes, of which a read returns at most
/// `most` bytes, at least 1, and these calls fail.
pub fn source_of(
    alloc: Global,
    file: &[u8],
    second: &[u8],
    most: usize,
    fail: Vec<u64>,
) -> Result<MemSource, AllocError> {
    if most == 0 {
        return Err(AllocError);
    }
    let mut files = Vec::new(alloc);
    files.push(file_of(alloc, "f", file)?)?;
    files.push(file_of(alloc, "c", second)?)?;
    Ok(MemSource::new(files, most, fail))
}

/// Returns a sink of which a write takes at most `most` bytes, at least 1, and these calls fail.
pub fn sink_of(alloc: Global, most: usize, fail: Vec<u64>) -> Result<MemSink, AllocError> {
    if most == 0 {
        return Err(AllocError);
    }
    MemSink::new(alloc, 64, most, fail)
}

/// Writes the status, the fault, the number of answers, the number of bytes written, the number of
/// files read, and the bytes.
fn write_outcome(
    outcome: &Outcome,
    source: &MemSource,
    sink: &MemSink,
    text: &mut String,
) -> Result<(), AllocError> {
    let status = outcome.status;
    let fault = &outcome.fault;
    let answers = outcome.answers.len();
    let written = outcome.written;
    let order = source.order;
    write!(text, "{status} {fault:?} {answers} {written} {order:?} ")?;
    write_bytes(&sink.bytes, text)
}

/// Calls `run_tool`, and writes its outcome.
pub fn write_run(
    alloc: Global,
    words: &str,
    source: &mut MemSource,
    sink: &mut MemSink,
    text: &mut String,
) -> Result<(), AllocError> {
    let words = words_of(alloc, words)?;
    let outcome = run_tool(alloc, &words, source, sink);
    write_outcome(&outcome, source, sink, text)
}

/// `words ; file ; most ; calls ; most ; calls`: writes the outcome of `run_tool` for a file and a
/// second file. A read returns at most the first `most` bytes, and the first `calls` of the source
/// fail; a write takes at most the second `most` bytes, and the second `calls` fail.
pub fn write_call(alloc: Global, asked: &str, text: &mut String) -> Result<(), AllocError> {
    let (words, rest) = cut(asked, ';');
    let (file, rest) = cut(rest, ';');
    let (read, rest) = cut(rest, ';');
    let (fail, rest) = cut(rest, ';');
    let (most, stop) = cut(rest, ';');
    let second = second_of(words, file).as_bytes();
    let file = file_named(file).as_bytes();
    let mut source = source_of(alloc, file, second, size(read)?, calls_of(alloc, fail)?)?;
    let mut sink = sink_of(alloc, size(most)?, calls_of(alloc, stop)?)?;
    write_run(alloc, words, &mut source, &mut sink, text)
}

/// Returns the name of a command.
fn command(settings: &Settings) -> &'static str {
    match settings {
        Settings::Verify(_) => "verify",
        Settings::Print(_) => "print",
        Settings::Run(_, _, _) => "run",
        Settings::Certify(_) => "certify",
        Settings::Check(_, _) => "check",
        Settings::Gen(_) => "gen",
        Settings::Pgcl(_) => "pgcl",
        Settings::Omega(_, _, _) => "omega",
        Settings::Remainder(_, _, _) => "remainder",
        Settings::Refute(_, _, _) => "refute",
    }
}

fn write_settings(settings: &Settings, text: &mut String) -> Result<(), AllocError> {
    let command = command(settings);
    match settings.files() {
        Files::Zero => write!(text, "{command} [none] [none]"),
        Files::One(file) => write!(text, "{command} [{file}] [none]"),
        Files::Two(file, second) => write!(text, "{command} [{file}] [{second}]"),
    }
}

/// `words`: writes the command that these arguments ask for, its file and its second file.
pub fn write_asked(alloc: Global, asked: &str, text: &mut String) -> Result<(), AllocError> {
    match settings(alloc, &words_of(alloc, asked)?) {
        Ok(settings) => write_settings(&settings, text),
        Err(_) => text.push_str("no command"),
    }
}
