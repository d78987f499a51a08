//! Refusals before a run begins, and their order, worked out by hand.

use crate::kinds::{Kind, check_texts};
use crate::runs::{source_of, write_refused};
use heyvl_tool::FILE_LIMIT;
use std::alloc::AllocError;

/// An error of the file is reported before one of the script, this one before a procedure that does
/// not exist, and this one before a procedure that is no program.
const REFUSALS: &str = "\
cut off ; coin ; stop gives 3 [1:13: fault 4: unexpected token or end of file|]
unknown ; coin ; stop gives 3 [1:20: fault 10: unknown name|]
coin ; zip ; steps 1|set b one| gives 3 [script line 2: fault|]
coin ; zip ; steps 1|set x 1|set x true| gives 3 [no such procedure|]
vac ; vac ;  gives 3 [script line 1: fault|]
vac ; vac ; steps 1| gives 3 [vac is not a program|]
reach ; a ; steps 0| gives 3 [b is not a program|]
reach ; vac ; steps 0| gives 3 [vac is not a program|]
coin ; coin ; steps 1|decide left|set b true| gives 3 [script line 3: fault|]
coin ; coin ; steps 1|set b true|set b true| gives 3 [script line 3: fault|]
coin ; coin ; steps 1\r| gives 3 [script line 1: fault|]";

#[test]
fn refusals_come_in_their_order(rt: HostRuntime) -> Result<(), AllocError> {
    check_texts(&rt, Kind::Run, &[REFUSALS])
}

/// Each file is started, read once, and read to its end.
const FAILURES: &str = "\
0 gives Read(0) Some(1) 5 [read fault|]
1 gives Read(0) Some(1) 5 [read fault|]
2 gives Read(0) Some(1) 5 [read fault|]
3 gives Read(1) Some(2) 5 [read fault|]
4 gives Read(1) Some(2) 5 [read fault|]
5 gives Read(1) Some(2) 5 [read fault|]";

#[test]
fn either_text_may_fail(rt: HostRuntime) -> Result<(), AllocError> {
    check_texts(&rt, Kind::Failure, &[FAILURES])
}

/// The script is read, and may be too long, before an error of the file is reported.
#[test]
fn a_long_script_is_refused(rt: HostRuntime) -> Result<(), AllocError> {
    let alloc = rt.alloc();
    let long = vec![in alloc; b' '; FILE_LIMIT + 1]?;
    let mut source = source_of(alloc, "coproc coin(", long, Vec::new(alloc))?;
    let mut found = String::new(alloc);
    write_refused(alloc, &mut source, &mut found)?;
    assert!(rt; found.as_str() == "TooLong(1) Some(2) 3 [file too long|] ");
    Ok(())
}
