//! `pgcl FILE`: the HeyVL file of a program of guarded commands.

ghost use Rattle.spelled_files.specs.Sources.{file_limit};
ghost use Rattle.command_rules.specs.Responses.{reply_of};
ghost use Rattle.command_rules.specs.commands.Pgcl.{IsPgclReply, ProgramFaultsAreTold};
ghost use Rattle.command_rules.specs.commands.Pgcl.{ProgramsAreTranslated};
ghost use Rattle.std.specs.Prelude.{IfOk, length, ◌≤◌};

use crate::commands::print::print_file;
use command_rules::{Response, refused};
use heyvl_files::{program_file, program_files_are_unique};
use std::alloc::{AllocError, Global};

/// Returns the reply of `pgcl` to a program with these bytes.
pub fn respond(alloc: Global, bytes: &[u8]) -> Result<Response, AllocError>
    requires { length bytes.now ≤ file_limit }
    ensures { IfOk result (λ response. IsPgclReply bytes.now (reply_of response)) }
{
    match program_file(alloc, bytes) {
        Ok(file) => print_file(alloc, &file),
        Err(stop) => refused(alloc, bytes, stop),
    }
}

/// If bytes spell a program without an error, `pgcl` writes the canonical text of its file, which
/// spells this file again up to places; otherwise it reports the first error.
pub fn programs_are_translated()
    ensures translated { ProgramsAreTranslated }
    ensures told { ProgramFaultsAreTold }
{
    program_files_are_unique();
}
