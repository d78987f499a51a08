//! The replies of the commands to the bytes of their files.

ghost use Rattle.spelled_files.specs.Sources.{file_limit};
ghost use Rattle.command_rules.specs.Responses.{reply_of};
ghost use Rattle.command_rules.specs.commands.{IsReplyTo};
ghost use Rattle.command_words.specs.Requests.{request_of};
ghost use Rattle.std.specs.Prelude.{IfOk, length, true, ◌≡◌, ◌≤◌};

use crate::{Response, Settings};
use heyvl_replies::commands::{
    certify, check, generate, omega, pgcl, print, refute, remainder, run, verify,
};
use std::alloc::{AllocError, Global};

/// Returns the reply of a command to the bytes of its first file and of its second one. They are
/// empty for a file that the command does not have.
pub fn respond(
    alloc: Global,
    settings: &Settings,
    bytes: &[u8],
    second: &[u8],
) -> Result<Response, AllocError>
    requires fits { (request_of settings.now).fits ≡ true }
    requires short { length bytes.now ≤ file_limit }
    requires short_second { length second.now ≤ file_limit }
    ensures { IfOk result (λ response.
        IsReplyTo settings.now bytes.now second.now (reply_of response)) }
{
    match settings {
        Settings::Verify(_) => verify::respond(alloc, bytes),
        Settings::Print(_) => print::respond(alloc, bytes),
        Settings::Run(_, procedure, _) => {
            let name = procedure.as_str().as_bytes();
            run::respond(alloc, bytes, name, second)
        }
        Settings::Certify(_) => certify::respond(alloc, bytes),
        Settings::Check(_, _) => check::respond(alloc, bytes, second),
        Settings::Gen(lines) => generate::respond(alloc, *lines),
        Settings::Pgcl(_) => pgcl::respond(alloc, bytes),
        Settings::Omega(_, procedure, name) => {
            let first = procedure.as_str().as_bytes();
            omega::respond(alloc, bytes, first, name.as_str().as_bytes())
        }
        Settings::Remainder(_, procedure, name) => {
            let first = procedure.as_str().as_bytes();
            remainder::respond(alloc, bytes, first, name.as_str().as_bytes())
        }
        Settings::Refute(_, procedure, _) => {
            let name = procedure.as_str().as_bytes();
            refute::respond(alloc, bytes, name, second)
        }
    }
}
