//! `certify FILE`: the certificates of a file's proved goals.

ghost use Rattle.heyvl_acts.specs.FormSizes.{FormsWithin};
ghost use Rattle.heyvl_acts.specs.PlainActs.{procedures_of};
ghost use Rattle.heyvl_acts.specs.Rules.{Each, MeetsAllRules};
ghost use Rattle.spelled_files.specs.Sources.{file_limit};
ghost use Rattle.command_rules.specs.Responses.{reply_of};
ghost use Rattle.command_rules.specs.commands.Certify.{FilesAreCertified, IsCertification};
ghost use Rattle.command_rules.specs.commands.Certify.{IsCertifyReply};
ghost use Rattle.std.specs.Prelude.{IfOk, length, ◌^◌, ◌≤◌};

use cert_text::write_cert;
use command_rules::{Response, answered, refused};
use heyvl_acts::Typed;
use heyvl_files::{spelling_is_unique, typed_source};
use heyvl_syntax::sources_have_no_fault;
use std::alloc::{AllocError, Global};
use verify_core::verify;

/// Returns the reply with the certificates of a file's proved goals, and with the answers on the
/// file.
fn certify_typed(alloc: Global, typed: &Typed) -> Result<Response, AllocError>
    requires rules { MeetsAllRules typed.now }
    requires small { Each (FormsWithin (2 ^ 27)) (procedures_of typed.now) }
    ensures { IfOk result (λ response.
        IsCertification (procedures_of typed.now) (reply_of response)) }
{
    let whole = verify(alloc, typed)?;
    let text = write_cert(alloc, &whole.certs)?;
    Ok(answered(whole.answers, text))
}

/// Returns the reply of `certify` to a file with these bytes.
pub fn respond(alloc: Global, bytes: &[u8]) -> Result<Response, AllocError>
    requires { length bytes.now ≤ file_limit }
    ensures { IfOk result (λ response. IsCertifyReply bytes.now (reply_of response)) }
{
    match typed_source(alloc, bytes) {
        Ok(typed) => certify_typed(alloc, &typed),
        Err(stop) => refused(alloc, bytes, stop),
    }
}

/// If bytes spell a file without an error, `certify` answers each procedure and writes the
/// certificates, and the status is 0, 1 or 2.
pub fn files_are_certified()
    ensures { FilesAreCertified }
{
    sources_have_no_fault();
    spelling_is_unique();
}
