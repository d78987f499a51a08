//! The reasons why a command does not do what its arguments ask for.

use heyvl_places::Span;
use run_unroller::Unrolled;

/// Why a call did not do what its arguments ask for, or `Nothing`. A `u8` is the number of a file
/// of the arguments, from 0.
#[derive(Debug, Drop)]
pub enum Fault {
    /// The call did what its arguments ask for.
    Nothing,
    /// The arguments are not a valid command.
    Usage,
    /// The source failed while the file was read.
    Read(u8),
    /// The file has more than 1,048,576 bytes.
    TooLong(u8),
    /// The file has the error of this number, at this place.
    Source(u8, Span),
    /// The certificates are invalid; the first invalid line, from 1.
    Cert(u32),
    /// The script is invalid; the first invalid line, from 1.
    Script(u32),
    /// No procedure of the file has the name of the arguments.
    NoProcedure,
    /// The procedures do not have the shape that the command requires.
    Shape,
    /// The procedure of this number is no program, and the run would reach it.
    NotProgram(u32),
    /// The run was stopped, with this result in place of sums.
    Run(Unrolled),
    /// The sink failed. This replaces every other fault.
    Write,
    /// Memory ran out.
    Memory,
}
