//! `verify FILE`: the report on a file.

ghost use Rattle.heyvl_acts.specs.PlainActs.{procedures_of};
ghost use Rattle.spelled_files.specs.Sources.{IsReady, file_limit};
ghost use Rattle.command_rules.specs.Responses.{reply_of};
ghost use Rattle.command_rules.specs.commands.Verify.{FilesAreVerified, IsReport, IsVerifyReply};
ghost use Rattle.std.specs.Prelude.{IfOk, length, ◌≤◌};

use command_rules::{Response, answered, refused};
use heyvl_acts::Typed;
use heyvl_files::{spelling_is_unique, typed_source};
use heyvl_syntax::sources_have_no_fault;
use std::alloc::{AllocError, Global};
use verdict_report::report;
use verify_core::verify;

/// Returns the report on a file with these bytes and this typed tree.
fn report_typed(alloc: Global, bytes: &[u8], typed: &Typed) -> Result<Response, AllocError>
    requires short { length bytes.now ≤ file_limit }
    requires ready { IsReady bytes.now typed.now }
    ensures { IfOk result (λ response.
        IsReport bytes.now (procedures_of typed.now) (reply_of response)) }
{
    let whole = verify(alloc, typed)?;
    let text = report(alloc, bytes, typed, &whole.answers, &whole.made)?;
    Ok(answered(whole.answers, text))
}

/// Returns the reply of `verify` to a file with these bytes.
pub fn respond(alloc: Global, bytes: &[u8]) -> Result<Response, AllocError>
    requires { length bytes.now ≤ file_limit }
    ensures { IfOk result (λ response. IsVerifyReply bytes.now (reply_of response)) }
{
    match typed_source(alloc, bytes) {
        Ok(typed) => report_typed(alloc, bytes, &typed),
        Err(stop) => refused(alloc, bytes, stop),
    }
}

/// If bytes spell a file without an error, `verify` answers each procedure and writes the report,
/// and the status is 0, 1 or 2.
pub fn files_are_verified()
    ensures { FilesAreVerified }
{
    sources_have_no_fault();
    spelling_is_unique();
}
