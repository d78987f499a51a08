//! The outcome of a call of the program.

use command_rules::Fault;
use verdict_report::Answer;

/// The outcome of a call of the program.
#[derive(Drop)]
pub struct Outcome {
    /// The exit status.
    ///
    /// - 0: done.
    /// - 1: some bound or ranking is false.
    /// - 2: none is false, and some is open.
    /// - 3: the file, the script, the certificates or the procedures are refused.
    /// - 4: the arguments are not a valid command.
    /// - 5: a file could not be read.
    /// - 6: the output could not be written.
    /// - 7: memory ran out.
    /// - 8: the run was stopped.
    pub status: u8,
    pub fault: Fault,
    /// If a report was made, one answer per procedure, in the order of the file.
    pub answers: Vec<Answer>,
    /// The number of bytes that were written.
    pub written: u64,
}
