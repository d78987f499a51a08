//! The law that each command gives its answer unless a device, a length limit or memory prevents
//! it.

ghost use Rattle.tool_laws.specs.Completeness.{CommandsAreComplete};

/// If the arguments ask for a command, neither the source nor the sink fails, no file is too long
/// and memory suffices, the command's reply to the bytes that were read is written as a whole, with
/// its answers and its status.
pub fn commands_are_complete()
    ensures { CommandsAreComplete }
{}
