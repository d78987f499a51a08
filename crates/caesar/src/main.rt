//! The program `caesar`: collects the arguments of the command line, and exits with the status of
//! `run_tool`.
#![tactic(auto)]

mod arguments;

use crate::arguments::words;
use heyvl_io::{FileSource, StdoutSink};
use heyvl_tool::run_tool;
use std::process::ExitCode;

/// The exit status if memory for the arguments runs out.
const NO_MEMORY: u8 = 7;

fn main(rt: HostRuntime) -> ExitCode {
    match words(&rt) {
        Ok(words) => {
            let mut source = FileSource::new(&rt);
            let mut sink = StdoutSink::new(&rt);
            let outcome = run_tool(rt.alloc(), &words, &mut source, &mut sink);
            ExitCode::from(outcome.status)
        }
        Err(_) => ExitCode::from(NO_MEMORY),
    }
}
