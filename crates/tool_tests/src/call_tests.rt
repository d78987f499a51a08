//! Outcomes of calls of `run_tool`, worked out by hand. The report on the coin has 28 bytes.

use crate::calls::{sink_of, source_of, write_run};
use crate::kinds::{Kind, check_texts};
use heyvl_tool::FILE_LIMIT;
use std::alloc::AllocError;

/// Arguments with the command that they ask for, its file and its second file.
const ASKED: &str = "\
verify,help gives verify [help] [none]
print,a b=c gives print [a b=c] [none]
run,f,p,s gives run [f] [s]
certify,verify gives certify [verify] [none]
check,f,c gives check [f] [c]
pgcl,f gives pgcl [f] [none]
omega,f,p,q gives omega [f] [none]
omega,f,p gives no command
remainder,f,p,q gives remainder [f] [none]
remainder,f,p,q,r gives no command
refute,f,p,s gives refute [f] [s]
refute,f,p gives no command";

#[test]
fn words_name_a_command_and_its_files(rt: HostRuntime) -> Result<(), AllocError> {
    check_texts(&rt, Kind::Words, &[ASKED])
}

/// The coin's file is read by one call of 61 bytes and one that finds the end. Each file is
/// started, read once, and read to its end.
const READ_FAULTS: &str = "\
verify,f ; coin ; 64 ; 0 ; 64 ;  gives 5 Read(0) 0 11 Some(1) [read fault|]
verify,f ; coin ; 64 ; 1 ; 64 ;  gives 5 Read(0) 0 11 Some(1) [read fault|]
verify,f ; coin ; 64 ; 2 ; 64 ;  gives 5 Read(0) 0 11 Some(1) [read fault|]
check,f,c ; coin ; 64 ; 0 ; 64 ;  gives 5 Read(0) 0 11 Some(1) [read fault|]
check,f,c ; coin ; 64 ; 1 ; 64 ;  gives 5 Read(0) 0 11 Some(1) [read fault|]
check,f,c ; coin ; 64 ; 2 ; 64 ;  gives 5 Read(0) 0 11 Some(1) [read fault|]
check,f,c ; coin ; 64 ; 3 ; 64 ;  gives 5 Read(1) 0 11 Some(2) [read fault|]
check,f,c ; coin ; 64 ; 4 ; 64 ;  gives 5 Read(1) 0 11 Some(2) [read fault|]
check,f,c ; coin ; 64 ; 5 ; 64 ;  gives 5 Read(1) 0 11 Some(2) [read fault|]";

/// With reads of seven bytes, calls 1 to 9 return the coin's 61 bytes, and call 10 finds the end;
/// calls 12 to 18 return the certificate's 43 bytes, and call 19 finds the end.
const SHORT_READS: &str = "\
check,f,c ; coin ; 7 ; 0 ; 64 ;  gives 5 Read(0) 0 11 Some(1) [read fault|]
check,f,c ; coin ; 7 ; 1 ; 64 ;  gives 5 Read(0) 0 11 Some(1) [read fault|]
check,f,c ; coin ; 7 ; 2 ; 64 ;  gives 5 Read(0) 0 11 Some(1) [read fault|]
check,f,c ; coin ; 7 ; 3 ; 64 ;  gives 5 Read(0) 0 11 Some(1) [read fault|]
check,f,c ; coin ; 7 ; 4 ; 64 ;  gives 5 Read(0) 0 11 Some(1) [read fault|]
check,f,c ; coin ; 7 ; 5 ; 64 ;  gives 5 Read(0) 0 11 Some(1) [read fault|]
check,f,c ; coin ; 7 ; 6 ; 64 ;  gives 5 Read(0) 0 11 Some(1) [read fault|]
check,f,c ; coin ; 7 ; 7 ; 64 ;  gives 5 Read(0) 0 11 Some(1) [read fault|]
check,f,c ; coin ; 7 ; 8 ; 64 ;  gives 5 Read(0) 0 11 Some(1) [read fault|]
check,f,c ; coin ; 7 ; 9 ; 64 ;  gives 5 Read(0) 0 11 Some(1) [read fault|]
check,f,c ; coin ; 7 ; 10 ; 64 ;  gives 5 Read(0) 0 11 Some(1) [read fault|]
check,f,c ; coin ; 7 ; 11 ; 64 ;  gives 5 Read(1) 0 11 Some(2) [read fault|]
check,f,c ; coin ; 7 ; 12 ; 64 ;  gives 5 Read(1) 0 11 Some(2) [read fault|]
check,f,c ; coin ; 7 ; 13 ; 64 ;  gives 5 Read(1) 0 11 Some(2) [read fault|]
check,f,c ; coin ; 7 ; 14 ; 64 ;  gives 5 Read(1) 0 11 Some(2) [read fault|]
check,f,c ; coin ; 7 ; 15 ; 64 ;  gives 5 Read(1) 0 11 Some(2) [read fault|]
check,f,c ; coin ; 7 ; 16 ; 64 ;  gives 5 Read(1) 0 11 Some(2) [read fault|]
check,f,c ; coin ; 7 ; 17 ; 64 ;  gives 5 Read(1) 0 11 Some(2) [read fault|]
check,f,c ; coin ; 7 ; 18 ; 64 ;  gives 5 Read(1) 0 11 Some(2) [read fault|]
check,f,c ; coin ; 7 ; 19 ; 64 ;  gives 5 Read(1) 0 11 Some(2) [read fault|]
check,f,c ; coin ; 7 ; 20 ; 64 ;  gives 0 Nothing 1 28 Some(2) [coin: verified|1 procedures|]";

/// A sink that fails keeps a prefix.
const PREFIXES: &str = "\
verify,f ; coin ; 64 ;  ; 4 ; 1 gives 6 Write 1 4 Some(1) [coin]
verify,f ; coin ; 64 ;  ; 4 ; 0 gives 6 Write 1 0 Some(1) []
verify,f ; coin ; 64 ;  ; 28 ; 0 gives 6 Write 1 0 Some(1) []
verify,f ; coin ; 64 ;  ; 5 ; 3 gives 6 Write 1 15 Some(1) [coin: verified|]
print,f ; close coin ; 64 ;  ; 8 ; 2 gives 6 Write 0 16 Some(1) [coproc coin() ->]";

/// Each byte of the report may be the last one.
const BYTES: &str = "\
verify,f ; coin ; 64 ;  ; 1 ; 0 gives 6 Write 1 0 Some(1) []
verify,f ; coin ; 64 ;  ; 1 ; 1 gives 6 Write 1 1 Some(1) [c]
verify,f ; coin ; 64 ;  ; 1 ; 2 gives 6 Write 1 2 Some(1) [co]
verify,f ; coin ; 64 ;  ; 1 ; 3 gives 6 Write 1 3 Some(1) [coi]
verify,f ; coin ; 64 ;  ; 1 ; 4 gives 6 Write 1 4 Some(1) [coin]
verify,f ; coin ; 64 ;  ; 1 ; 5 gives 6 Write 1 5 Some(1) [coin:]
verify,f ; coin ; 64 ;  ; 1 ; 6 gives 6 Write 1 6 Some(1) [coin: ]
verify,f ; coin ; 64 ;  ; 1 ; 7 gives 6 Write 1 7 Some(1) [coin: v]
verify,f ; coin ; 64 ;  ; 1 ; 8 gives 6 Write 1 8 Some(1) [coin: ve]
verify,f ; coin ; 64 ;  ; 1 ; 9 gives 6 Write 1 9 Some(1) [coin: ver]
verify,f ; coin ; 64 ;  ; 1 ; 10 gives 6 Write 1 10 Some(1) [coin: veri]
verify,f ; coin ; 64 ;  ; 1 ; 11 gives 6 Write 1 11 Some(1) [coin: verif]
verify,f ; coin ; 64 ;  ; 1 ; 12 gives 6 Write 1 12 Some(1) [coin: verifi]
verify,f ; coin ; 64 ;  ; 1 ; 13 gives 6 Write 1 13 Some(1) [coin: verifie]
verify,f ; coin ; 64 ;  ; 1 ; 14 gives 6 Write 1 14 Some(1) [coin: verified]
verify,f ; coin ; 64 ;  ; 1 ; 15 gives 6 Write 1 15 Some(1) [coin: verified|]
verify,f ; coin ; 64 ;  ; 1 ; 16 gives 6 Write 1 16 Some(1) [coin: verified|1]
verify,f ; coin ; 64 ;  ; 1 ; 17 gives 6 Write 1 17 Some(1) [coin: verified|1 ]
verify,f ; coin ; 64 ;  ; 1 ; 18 gives 6 Write 1 18 Some(1) [coin: verified|1 p]
verify,f ; coin ; 64 ;  ; 1 ; 19 gives 6 Write 1 19 Some(1) [coin: verified|1 pr]
verify,f ; coin ; 64 ;  ; 1 ; 20 gives 6 Write 1 20 Some(1) [coin: verified|1 pro]
verify,f ; coin ; 64 ;  ; 1 ; 21 gives 6 Write 1 21 Some(1) [coin: verified|1 proc]
verify,f ; coin ; 64 ;  ; 1 ; 22 gives 6 Write 1 22 Some(1) [coin: verified|1 proce]
verify,f ; coin ; 64 ;  ; 1 ; 23 gives 6 Write 1 23 Some(1) [coin: verified|1 proced]
verify,f ; coin ; 64 ;  ; 1 ; 24 gives 6 Write 1 24 Some(1) [coin: verified|1 procedu]
verify,f ; coin ; 64 ;  ; 1 ; 25 gives 6 Write 1 25 Some(1) [coin: verified|1 procedur]
verify,f ; coin ; 64 ;  ; 1 ; 26 gives 6 Write 1 26 Some(1) [coin: verified|1 procedure]
verify,f ; coin ; 64 ;  ; 1 ; 27 gives 6 Write 1 27 Some(1) [coin: verified|1 procedures]
verify,f ; coin ; 64 ;  ; 1 ; 28 gives 0 Nothing 1 28 Some(1) [coin: verified|1 procedures|]";

/// The file has 93 bytes, and its certificate, with an integer split, has 95. Each file is started,
/// read twice, and read to its end.
const SPLITS: &str = "\
verify,f ; gap ; 64 ;  ; 64 ;  gives 0 Nothing 1 27 Some(1) [gap: verified|1 procedures|]
check,f,c ; gap ; 64 ;  ; 64 ;  gives 0 Nothing 1 27 Some(2) [gap: verified|1 procedures|]
check,f,c ; gap ; 64 ; 3 ; 64 ;  gives 5 Read(0) 0 11 Some(1) [read fault|]
check,f,c ; gap ; 64 ; 4 ; 64 ;  gives 5 Read(1) 0 11 Some(2) [read fault|]
check,f,c ; gap ; 64 ; 7 ; 64 ;  gives 5 Read(1) 0 11 Some(2) [read fault|]
check,f,c ; gap ; 64 ; 8 ; 64 ;  gives 0 Nothing 1 27 Some(2) [gap: verified|1 procedures|]
check,f,c ; gap ; 64 ;  ; 1 ; 0 gives 6 Write 1 0 Some(2) []
check,f,c ; gap ; 64 ;  ; 1 ; 13 gives 6 Write 1 13 Some(2) [gap: verified]
check,f,c ; gap ; 64 ;  ; 1 ; 26 gives 6 Write 1 26 Some(2) [gap: verified|1 procedures]";

/// Lower bounds have no answers. `refute` has those of `verify`, even if the sink fails.
const BOUNDS: &str = "\
omega,f,two,j ; two ; 64 ;  ; 64 ;  gives 0 Nothing 0 18 Some(1) [two: omega: holds|]
omega,f,j,two ; two ; 64 ;  ; 64 ;  gives 3 Shape 0 18 Some(1) [not an omega pair|]
omega,f,two,k ; two ; 64 ;  ; 64 ;  gives 3 NoProcedure 0 18 Some(1) [no such procedure|]
remainder,f,two,u ; two ; 64 ;  ; 64 ;  gives 0 Nothing 0 36 Some(1) [two: remainder: pre of u over 1 * m|]
remainder,f,two,j ; two ; 64 ;  ; 64 ;  gives 3 Shape 0 21 Some(1) [not a remainder pair|]
refute,f,coin,c ; low coin ; 64 ;  ; 64 ;  gives 1 Nothing 1 40 Some(2) [coin: violated at step 1: 1/2 above 1/3|]
refute,f,coin,c ; coin ; 64 ;  ; 64 ;  gives 0 Nothing 1 32 Some(2) [coin: within 1/2 at step 1: 1/2|]
refute,f,coin,c ; low coin ; 64 ;  ; 64 ; 0 gives 6 Write 1 0 Some(2) []
refute,f,two,c ; two ; 64 ;  ; 64 ;  gives 3 Shape 0 20 Some(2) [two is not a coproc|]
refute,f,coin,c ; coin ; 64 ; 3 ; 64 ;  gives 5 Read(1) 0 11 Some(2) [read fault|]";

#[test]
fn bounds_from_below_and_violations(rt: HostRuntime) -> Result<(), AllocError> {
    check_texts(&rt, Kind::Call, &[BOUNDS])
}

#[test]
fn calls_over_failing_devices(rt: HostRuntime) -> Result<(), AllocError> {
    check_texts(
        &rt,
        Kind::Call,
        &[READ_FAULTS, SHORT_READS, PREFIXES, BYTES, SPLITS],
    )
}

/// The second file is read, and may be too long, before an error of the first one is reported.
#[test]
fn long_certificates_are_refused(rt: HostRuntime) -> Result<(), AllocError> {
    let alloc = rt.alloc();
    let long = vec![in alloc; b' '; FILE_LIMIT + 1]?;
    let mut source = source_of(alloc, b"coproc coin(", &long, 64, Vec::new(alloc))?;
    let mut sink = sink_of(alloc, 64, Vec::new(alloc))?;
    let mut found = String::new(alloc);
    write_run(alloc, "check,f,c", &mut source, &mut sink, &mut found)?;
    assert!(rt; found.as_str() == "3 TooLong(1) 0 14 Some(2) [file too long|] ");
    Ok(())
}
