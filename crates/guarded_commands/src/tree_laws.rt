//! Laws that give the plain trees of programs in memory.

ghost use Rattle.guarded_commands.specs.PlainCommands.{PlainCommands};

/// Gives the plain tree of each variant of a command.
pub fn commands_are_plain()
    ensures { PlainCommands }
{}
