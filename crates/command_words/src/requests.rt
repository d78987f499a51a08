//! The requests that arguments of the command line make.

ghost use Rattle.command_words.specs.Requests.{files_of};
ghost use Rattle.command_words.specs.declared.requests.SettingsStop.TheVariants.{Memory};
ghost use Rattle.command_words.specs.internal.FileNames.{named};
ghost use Rattle.std.specs.Prelude.{◌≡◌};

use crate::Word;
use std::alloc::AllocError;
use thiserror::Error;

/// A command with its arguments.
#[derive(Drop)]
pub enum Settings {
    /// `verify FILE`: the report on the file.
    Verify(Word),
    /// `print FILE`: the canonical text of the file.
    Print(Word),
    /// `run FILE PROC SCRIPT`: the sums over the runs of a procedure of the file under a script.
    Run(Word, Word, Word),
    /// `certify FILE`: the certificates of the file's proved goals.
    Certify(Word),
    /// `check FILE CERT`: the report on the file by certificates.
    Check(Word, Word),
    /// `gen N`: the summary of the answers on the generated text of N lines, from 1 to 1,024.
    Gen(u32),
    /// `pgcl FILE`: the HeyVL file of a program of guarded commands.
    Pgcl(Word),
    /// `omega FILE PROC NAME`: whether the pre of NAME is an omega invariant of the loop of PROC.
    Omega(Word, Word, Word),
    /// `remainder FILE PROC NAME`: whether PROC's runs that terminate within m iterations
    /// contribute at least pre(PROC) - pre(NAME)/(E*m), where E is the step of its ranking.
    Remainder(Word, Word, Word),
    /// `refute FILE PROC SCRIPT`: the least number of steps after which the runs of PROC under a
    /// script exceed its pre.
    Refute(Word, Word, Word),
}

/// The names of the files of a command, in the order in which they are read.
#[derive(Clone, Copy)]
pub enum Files<'a> {
    Zero,
    One(&'a str),
    Two(&'a str, &'a str),
}

impl Settings {
    /// Returns the files of the command.
    pub fn files(&self) -> Files<'_>
        ensures { named result ≡ files_of self.now }
    {
        match self {
            Settings::Verify(file) => Files::One(file.as_str()),
            Settings::Print(file) => Files::One(file.as_str()),
            Settings::Run(file, _, script) => Files::Two(file.as_str(), script.as_str()),
            Settings::Certify(file) => Files::One(file.as_str()),
            Settings::Check(file, certificates) => {
                Files::Two(file.as_str(), certificates.as_str())
            }
            Settings::Gen(_) => Files::Zero,
            Settings::Pgcl(file) => Files::One(file.as_str()),
            Settings::Omega(file, _, _) => Files::One(file.as_str()),
            Settings::Remainder(file, _, _) => Files::One(file.as_str()),
            Settings::Refute(file, _, script) => Files::Two(file.as_str(), script.as_str()),
        }
    }
}

/// Why arguments make no request.
#[derive(Debug, Drop, Error)]
pub enum SettingsStop {
    /// The arguments are not a valid command.
    #[error("no command")]
    Usage,
    /// Memory ran out.
    #[error("out of memory")]
    Memory(AllocError),
}

impl From<AllocError> for SettingsStop {
    ghost from_gives = { λ error stop. stop ≡ Memory error };

    fn from(error: AllocError) -> Self {
        SettingsStop::Memory(error)
    }
}
