//! Devices in memory, worked out by hand.

use crate::kinds::{Kind, check_texts};
use heyvl_io::{ReadStop, SureSource, read_all};
use std::alloc::{AllocError, Global};

/// All bytes are read up to the limit, by one or more reads.
const WHOLE: &str = "\
f=hello ; 1 ;  ; all:f:5 order gives [hello] Some(1)
f=hello ; 1 ;  ; all:f:6 order gives [hello] Some(1)
f=hello ; 1 ;  ; all:f:18446744073709551615 order gives [hello] Some(1)
f=hello ; 2 ;  ; all:f:5 order gives [hello] Some(1)
f=hello ; 2 ;  ; all:f:6 order gives [hello] Some(1)
f=hello ; 2 ;  ; all:f:18446744073709551615 order gives [hello] Some(1)
f=hello ; 4 ;  ; all:f:5 order gives [hello] Some(1)
f=hello ; 4 ;  ; all:f:6 order gives [hello] Some(1)
f=hello ; 4 ;  ; all:f:18446744073709551615 order gives [hello] Some(1)
f=hello ; 5 ;  ; all:f:5 order gives [hello] Some(1)
f=hello ; 5 ;  ; all:f:6 order gives [hello] Some(1)
f=hello ; 5 ;  ; all:f:18446744073709551615 order gives [hello] Some(1)
f=hello ; 9 ;  ; all:f:5 order gives [hello] Some(1)
f=hello ; 9 ;  ; all:f:6 order gives [hello] Some(1)
f=hello ; 9 ;  ; all:f:18446744073709551615 order gives [hello] Some(1)";

/// One byte more than the limit is read.
const TOO_LONG: &str = "\
f=hello ; 1 ;  ; all:f:0 place gives more bytes than the limit 1
f=hello ; 1 ;  ; all:f:1 place gives more bytes than the limit 2
f=hello ; 1 ;  ; all:f:4 place gives more bytes than the limit 5
f=hello ; 2 ;  ; all:f:0 place gives more bytes than the limit 1
f=hello ; 2 ;  ; all:f:1 place gives more bytes than the limit 2
f=hello ; 2 ;  ; all:f:4 place gives more bytes than the limit 5
f=hello ; 4 ;  ; all:f:0 place gives more bytes than the limit 1
f=hello ; 4 ;  ; all:f:1 place gives more bytes than the limit 2
f=hello ; 4 ;  ; all:f:4 place gives more bytes than the limit 5
f=hello ; 5 ;  ; all:f:0 place gives more bytes than the limit 1
f=hello ; 5 ;  ; all:f:1 place gives more bytes than the limit 2
f=hello ; 5 ;  ; all:f:4 place gives more bytes than the limit 5
f=hello ; 9 ;  ; all:f:0 place gives more bytes than the limit 1
f=hello ; 9 ;  ; all:f:1 place gives more bytes than the limit 2
f=hello ; 9 ;  ; all:f:4 place gives more bytes than the limit 5";

/// With reads of two bytes, call 0 is the start, calls 1 to 3 return `he`, `ll` and `o`, and call 4
/// finds the end.
const FAILING: &str = "\
f=hello ; 2 ; 0 ; all:f:5 place calls faults order gives the source failed 0 1 1 Some(1)
f=hello ; 2 ; 1 ; all:f:5 place calls faults order gives the source failed 0 2 1 Some(1)
f=hello ; 2 ; 2 ; all:f:5 place calls faults order gives the source failed 2 3 1 Some(1)
f=hello ; 2 ; 3 ; all:f:5 place calls faults order gives the source failed 4 4 1 Some(1)
f=hello ; 2 ; 4 ; all:f:5 place calls faults order gives the source failed 5 5 1 Some(1)
f=hello ; 2 ; 5 6 ; all:f:5 calls faults gives [hello] 5 0";

/// The number of the first names that were started in their order, once each.
const ORDER: &str = "\
a=1 b=2 ; 1 ;  ; start:a start:b order gives started started Some(2)
a=1 b=2 ; 1 ;  ; start:a order gives started Some(1)
a=1 b=2 ; 1 ;  ; order gives Some(0)
a=1 b=2 ; 1 ;  ; start:b order gives started None
a=1 b=2 ; 1 ;  ; start:a start:a order gives started started None
a=1 b=2 ; 1 ;  ; start:b start:a order gives started started None
a=1 b=2 ; 1 ;  ; start:x order gives failed None
a=1 b=2 ; 1 ;  ; start:a start:b start:a order gives started started started None";

/// Of equal names the first counts; after a failed start no bytes are left; counters stay at their
/// largest value.
const OTHERS: &str = "\
f=one f=two g=three ; 9 ;  ; all:f:9 gives [one]
f=hello ; 9 ;  ; read:3 start:f read:3 start:g faults read:3 gives [] started [hel] failed 1 []
f=hello ; 9 ; 18446744073709551615 ; far start:f start:f calls faults gives failed failed 18446744073709551615 18446744073709551615";

#[test]
fn sources_in_memory(rt: HostRuntime) -> Result<(), AllocError> {
    check_texts(
        &rt,
        Kind::Source,
        &[WHOLE, TOO_LONG, FAILING, ORDER, OTHERS],
    )
}

/// Of equal names the first counts, and a name that does not exist has no bytes.
const SURE: &str = "\
f=one f=two g=three ; 9 ; f:9 x:9 gives [one] []";

#[test]
fn sources_that_never_fail(rt: HostRuntime) -> Result<(), AllocError> {
    check_texts(&rt, Kind::SureSource, &[SURE])
}

/// With writes of two bytes, calls 0 to 2 take `he`, `ll` and `o`. Bytes are appended to those
/// before.
const SINKS: &str = "\
5 ; 2 ; 0 ; write:hello bytes faults gives cut at 0 [] 1
5 ; 2 ; 1 ; write:hello bytes faults gives cut at 2 [he] 1
5 ; 2 ; 2 ; write:hello bytes faults gives cut at 4 [hell] 1
5 ; 2 ; 3 ; write:hello bytes faults gives 5 [hello] 0
5 ; 1 ; 3 ; write:hello bytes faults gives cut at 3 [hel] 1
5 ; 4 ; 1 ; write:hello bytes faults gives cut at 4 [hell] 1
5 ; 9 ; 0 ; write:hello bytes faults gives cut at 0 [] 1
5 ; 9 ; 1 ; write:hello bytes faults gives 5 [hello] 0
2 ; 1 ;  ; write:he write: calls write:llo bytes gives 2 0 2 3 [hello]";

#[test]
fn sinks_in_memory(rt: HostRuntime) -> Result<(), AllocError> {
    check_texts(&rt, Kind::Sink, &[SINKS])
}

/// Returns a source of 10,000 bytes, more than one read asks for.
fn long_source(alloc: Global) -> Result<SureSource, AllocError> {
    let mut files = Vec::new(alloc);
    files.push((String::from_str(alloc, "f")?, vec![in alloc; b'x'; 10_000]?))?;
    Ok(SureSource::new(files, usize::MAX))
}

#[test]
fn more_than_one_piece_is_read(rt: HostRuntime) -> Result<(), AllocError> {
    let mut source = long_source(rt.alloc())?;
    let whole = read_all(rt.alloc(), &mut source, "f", 10_000);
    assert!(rt; whole.is_ok_and(|bytes| bytes.len() == 10_000));
    let short = read_all(rt.alloc(), &mut source, "f", 9_999);
    assert!(rt; short.err() == Some(ReadStop::TooLong));
    Ok(())
}
