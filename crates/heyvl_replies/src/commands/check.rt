//! `check FILE CERT`: the report on a file by certificates.

ghost use Rattle.cert_text.specs.Certificates.{IsGrowingAfter, certificates_of};
ghost use Rattle.cert_text.specs.Texts.{Spells};
ghost use Rattle.heyvl_acts.specs.PlainActs.{procedures_of};
ghost use Rattle.spelled_files.specs.Sources.{IsReady, file_limit};
ghost use Rattle.command_rules.specs.Responses.{reply_of};
ghost use Rattle.command_rules.specs.commands.Check.{FilesAreChecked, IsCheckReply, IsCheckReport};
ghost use Rattle.command_rules.specs.commands.Check.{IsCheckedReply, certificate_fault};
ghost use Rattle.std.specs.Prelude.{IfOk, List, None, codes, decimal, length, ◌++◌, ◌≡◌, ◌≤◌, ℕ};

use cert_text::{CertStop, read_cert};
use command_rules::{Fault, Response, Text, answered, message, refused};
use goal_answers::GoalCert;
use heyvl_acts::Typed;
use heyvl_files::{spelling_is_unique, typed_source};
use heyvl_syntax::sources_have_no_fault;
use itoa::Buffer;
use std::alloc::{AllocError, Global};
use verdict_report::report;
use verify_core::check_all;

/// Returns the line on invalid certificates.
fn fault_text(alloc: Global, line: u32) -> Result<Vec<u8>, AllocError>
    ensures { IfOk result (λ text. text.items ≡ codes "certificate line " ++ decimal line
        ++ codes ": fault\n") }
{
    let mut buffer = Buffer::new();
    let mut text = Vec::new(alloc);
    text.extend_from_slice(b"certificate line ")?;
    text.extend_from_slice(buffer.format(line).as_bytes())?;
    text.extend_from_slice(b": fault\n")?;
    Ok(text)
}

/// Returns the reply to invalid certificates, whose first invalid line is `line`.
fn certificate_fault(alloc: Global, line: u32) -> Result<Response, AllocError>
    ensures { IfOk result (λ response. reply_of response ≡ certificate_fault line) }
{
    let text = fault_text(alloc, line)?;
    Ok(message(alloc, Fault::Cert(line), Text::Made(text)))
}

/// Returns the report on a file by these certificates.
fn report_by(
    alloc: Global,
    bytes: &[u8],
    typed: &Typed,
    certs: &[GoalCert],
) -> Result<Response, AllocError>
    requires short { length bytes.now ≤ file_limit }
    requires ready { IsReady bytes.now typed.now }
    requires order { IsGrowingAfter None (certificates_of certs.now) }
    ensures { IfOk result (λ response. (text : List ℕ) → Spells (certificates_of certs.now) text
        → IsCheckReport bytes.now (procedures_of typed.now) text (reply_of response)) }
{
    let whole = check_all(alloc, typed, certs)?;
    let text = report(alloc, bytes, typed, &whole.answers, &whole.made)?;
    Ok(answered(whole.answers, text))
}

/// Returns the reply of `check` to a file without an error and a text of certificates: the first
/// invalid line of the text, or else the report.
fn check_typed(
    alloc: Global,
    bytes: &[u8],
    typed: &Typed,
    text: &[u8],
) -> Result<Response, AllocError>
    requires short { length bytes.now ≤ file_limit }
    requires short_text { length text.now ≤ file_limit }
    requires ready { IsReady bytes.now typed.now }
    ensures { IfOk result (λ response.
        IsCheckedReply bytes.now text.now (procedures_of typed.now) (reply_of response)) }
{
    match read_cert(alloc, text) {
        Ok(certs) => report_by(alloc, bytes, typed, &certs),
        Err(CertStop::Fault(line)) => certificate_fault(alloc, line),
        Err(CertStop::Memory(error)) => Err(error),
    }
}

/// Returns the reply of `check` to a file with these bytes and a text of certificates.
pub fn respond(alloc: Global, bytes: &[u8], text: &[u8]) -> Result<Response, AllocError>
    requires short { length bytes.now ≤ file_limit }
    requires short_text { length text.now ≤ file_limit }
    ensures { IfOk result (λ response. IsCheckReply bytes.now text.now (reply_of response)) }
{
    match typed_source(alloc, bytes) {
        Ok(typed) => check_typed(alloc, bytes, &typed, text),
        Err(stop) => refused(alloc, bytes, stop),
    }
}

/// If bytes spell a file without an error and a text spells certificates, `check` answers each
/// procedure and writes the report by the certificates, and the status is 0, 1 or 2.
pub fn files_are_checked()
    ensures { FilesAreChecked }
{
    sources_have_no_fault();
    spelling_is_unique();
}
