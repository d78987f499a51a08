//! `print FILE`: the canonical text of a file.

ghost use Rattle.heyvl_syntax.specs.Procedures.{procedures};
ghost use Rattle.spelled_files.specs.Sources.{file_limit};
ghost use Rattle.command_rules.specs.Responses.{reply_of};
ghost use Rattle.command_rules.specs.commands.Print.{FilesArePrinted, IsPrintReply, printed};
ghost use Rattle.std.specs.Prelude.{IfOk, length, ◌≡◌, ◌≤◌};

use command_rules::{Fault, Response, Text, message, refused};
use heyvl_files::{spelled_file, spelling_is_unique};
use heyvl_print::print;
use heyvl_syntax::{File, sources_have_no_fault};
use std::alloc::{AllocError, Global};

/// Returns the reply with the canonical text of a file.
pub(crate) fn print_file(alloc: Global, file: &File) -> Result<Response, AllocError>
    ensures { IfOk result (λ response. reply_of response ≡ printed (procedures file.now)) }
{
    let text = print(alloc, file)?;
    Ok(message(alloc, Fault::Nothing, Text::Made(text)))
}

/// Returns the reply of `print` to a file with these bytes.
pub fn respond(alloc: Global, bytes: &[u8]) -> Result<Response, AllocError>
    requires { length bytes.now ≤ file_limit }
    ensures { IfOk result (λ response. IsPrintReply bytes.now (reply_of response)) }
{
    match spelled_file(alloc, bytes) {
        Ok(file) => print_file(alloc, &file),
        Err(stop) => refused(alloc, bytes, stop),
    }
}

/// If bytes spell a file, `print` writes its canonical text.
pub fn files_are_printed()
    ensures { FilesArePrinted }
{
    sources_have_no_fault();
    spelling_is_unique();
}
