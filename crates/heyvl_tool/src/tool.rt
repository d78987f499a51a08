//! The whole program.

ghost use Rattle.heyvl_io.specs.declared.reader.ReadStop.{ReadStop};
ghost use Rattle.spelled_files.specs.Sources.{file_limit};
ghost use Rattle.tool_laws.specs.Calls.{IsFilesReply, IsReadReply, IsSaid};
ghost use Rattle.tool_laws.specs.GuardedPrograms.{ProgramsAreMeant};
ghost use Rattle.tool_laws.specs.Headline.{AnswersAreMeant, SumsAreMeant};
ghost use Rattle.tool_laws.specs.LowerBounds.{BoundsAreMeant};
ghost use Rattle.tool_laws.specs.Outcomes.{HasCause, IsAnswered, IsDelivered, IsOutOfMemory};
ghost use Rattle.tool_laws.specs.Refutations.{ViolationsAreMeant};
ghost use Rattle.command_rules.specs.Responses.{reply_of};
ghost use Rattle.tool_laws.specs.SourceUses.{IsReadInTurn, IsStartedOnce, IsStartedRight};
ghost use Rattle.command_words.specs.Requests.Files.{one, two};
ghost use Rattle.command_rules.specs.commands.{IsReplyTo};
ghost use Rattle.command_words.specs.Requests.{files_of, request_of};
ghost use Rattle.tool_laws.specs.Refusals.{IsUnread};
ghost use Rattle.std.specs.Prelude.{IfOk, IsErr, length, map, string_bytes, true, ◌≡◌, ◌≤◌, ◌⊎◌};

use crate::commands::respond;
use crate::moments::{Called, Written};
use crate::{Fault, Files, Outcome, Response, Settings, SettingsStop, Text};
use command_line::{USAGE, settings};
use heyvl_io::{ReadStop, Sink, Source, read_all, write_all};
use heyvl_replies::commands::pgcl::programs_are_translated;
use heyvl_replies::message;
use resolved_laws::resolved_files_meet_the_rules;
use run_unroller::unrolled_sums_are_meant;
use spelled_files::program_files_have_sums;
use std::alloc::{AllocError, Global};
use tool_laws::broken_bounds_are_never_verified;

/// The largest number of bytes of a file.
pub const FILE_LIMIT: usize = 1_048_576;

/// Does what the arguments ask for: reads the files of the command from the source, one after the
/// other, and writes one text to the sink.
///
/// | arguments | text |
/// |---|---|
/// | `verify FILE` | the report on the file |
/// | `print FILE` | its canonical text |
/// | `run FILE PROC SCRIPT` | the sums over runs |
/// | `certify FILE` | the certificates of the proved goals |
/// | `check FILE CERT` | the report by certificates |
/// | `gen N` | the summary of the answers on a generated text |
/// | `pgcl FILE` | the HeyVL file of a program of guarded commands |
/// | `omega FILE PROC NAME`, `remainder FILE PROC NAME` | whether a lower bound holds |
/// | `refute FILE PROC SCRIPT` | whether runs exceed a bound |
///
/// A file of HeyVL with one of the errors 1 to 6 is refused by each command, and one with a static
/// error by each but `print`.
pub fn run_tool<F: Source, K: Sink>(
    alloc: Global,
    words: &Vec<String>,
    source: &mut F,
    sink: &mut K,
) -> Outcome
    // A reply that has its cause was written, as a whole or up to a failure of the sink; or memory
    // ran out.
    ensures answered { IsAnswered
        (⟦<F as Called>⟧.made (map string_bytes words.now.items) source.old source.new)
        (⟦<K as Written>⟧.done sink.old sink.new) result
        ⊎ IsOutOfMemory (⟦<K as Written>⟧.done sink.old sink.new) result }

    // The meaning of the answers, of the sums of a run, of the file of a program of guarded
    // commands, of lower bounds and of violations. It is about the bytes that were read: those that
    // the source holds, if it reports them. It also applies to a source that reports nothing.
    ensures verified { AnswersAreMeant
        (⟦<F as Called>⟧.made (map string_bytes words.now.items) source.old source.new)
        (⟦<K as Written>⟧.done sink.old sink.new) result }
    ensures summed { SumsAreMeant
        (⟦<F as Called>⟧.made (map string_bytes words.now.items) source.old source.new)
        (⟦<K as Written>⟧.done sink.old sink.new) result }
    ensures translated { ProgramsAreMeant
        (⟦<F as Called>⟧.made (map string_bytes words.now.items) source.old source.new)
        (⟦<K as Written>⟧.done sink.old sink.new) result }
    ensures bounded { BoundsAreMeant
        (⟦<F as Called>⟧.made (map string_bytes words.now.items) source.old source.new)
        (⟦<K as Written>⟧.done sink.old sink.new) result }
    ensures refuted { ViolationsAreMeant
        (⟦<F as Called>⟧.made (map string_bytes words.now.items) source.old source.new)
        (⟦<K as Written>⟧.done sink.old sink.new) result }

    // The names that are started.
    ensures started { IsStartedRight
        (⟦<F as Called>⟧.made (map string_bytes words.now.items) source.old source.new)
        (result.fault ≡ Fault.Memory) }
    ensures source_names { F.names source.new ≡ F.names source.old }
    ensures source_holds { F.holds source.new ≡ F.holds source.old }
    ensures source_count { F.faults source.old ≤ F.faults source.new }
    ensures sink_count { K.faults sink.old ≤ K.faults sink.new }
{
    resolved_files_meet_the_rules();
    unrolled_sums_are_meant();
    program_files_have_sums();
    programs_are_translated();
    broken_bounds_are_never_verified();
    match response_to(alloc, words, source) {
        Ok(response) => deliver(response, sink),
        Err(_) => Outcome {
            status: 7,
            fault: Fault::Memory,
            answers: Vec::new(alloc),
            written: 0,
        },
    }
}

/// Returns the reply to a call, before it is written.
fn response_to<F: Source>(
    alloc: Global,
    words: &Vec<String>,
    source: &mut F,
) -> Result<Response, AllocError>
    ensures cause { IfOk result
        (λ response.
        HasCause (⟦<F as Called>⟧.made (map string_bytes words.now.items) source.old source.new)
        (reply_of response)) }
    ensures started { IsStartedRight
        (⟦<F as Called>⟧.made (map string_bytes words.now.items) source.old source.new)
        (IsErr result) }
    ensures kept { ⟦<F as Called>⟧.kept source.old source.new }
{
    match settings(alloc, words) {
        Ok(settings) => answer_to(alloc, &settings, source),
        Err(SettingsStop::Usage) => Ok(message(alloc, Fault::Usage, Text::Fixed(USAGE))),
        Err(SettingsStop::Memory(error)) => Err(error),
    }
}

/// Returns the reply of a command, and reads its files.
fn answer_to<F: Source>(
    alloc: Global,
    settings: &Settings,
    source: &mut F,
) -> Result<Response, AllocError>
    requires { (request_of settings.now).fits ≡ true }
    ensures answer { IfOk result
        (λ response. IsFilesReply (files_of settings.now) (IsReplyTo settings.now)
        (⟦<F as Called>⟧.told source.old)
        (⟦<F as Called>⟧.seen source.old) (⟦<F as Called>⟧.seen source.new) (reply_of response)) }
    ensures turn { IsReadInTurn (files_of settings.now) (⟦<F as Called>⟧.told source.old)
        (⟦<F as Called>⟧.seen source.old) (⟦<F as Called>⟧.seen source.new) }
    ensures kept { ⟦<F as Called>⟧.kept source.old source.new }
{
    match settings.files() {
        Files::Zero => respond(alloc, settings, &[], &[]),
        Files::One(file) => answer_one(alloc, settings, file, source),
        Files::Two(file, second) => answer_two(alloc, settings, file, second, source),
    }
}

/// Returns the reply of a command, and reads this file.
fn answer_one<F: Source>(
    alloc: Global,
    settings: &Settings,
    file: &str,
    source: &mut F,
) -> Result<Response, AllocError>
    requires { (request_of settings.now).fits ≡ true }
    ensures answer { IfOk result
        (λ response. IsFilesReply (one file.now) (IsReplyTo settings.now)
        (⟦<F as Called>⟧.told source.old)
        (⟦<F as Called>⟧.seen source.old) (⟦<F as Called>⟧.seen source.new) (reply_of response)) }
    ensures turn { IsReadInTurn (one file.now) (⟦<F as Called>⟧.told source.old)
        (⟦<F as Called>⟧.seen source.old) (⟦<F as Called>⟧.seen source.new) }
    ensures kept { ⟦<F as Called>⟧.kept source.old source.new }
{
    match read_all(alloc, source, file, FILE_LIMIT) {
        Ok(bytes) => respond(alloc, settings, &bytes, &[]),
        Err(stop) => unread(alloc, stop, 0),
    }
}

/// Returns the reply of a command, and reads these two files.
fn answer_two<F: Source>(
    alloc: Global,
    settings: &Settings,
    file: &str,
    second: &str,
    source: &mut F,
) -> Result<Response, AllocError>
    requires { (request_of settings.now).fits ≡ true }
    ensures answer { IfOk result
        (λ response. IsFilesReply (two file.now second.now) (IsReplyTo settings.now)
        (⟦<F as Called>⟧.told source.old)
        (⟦<F as Called>⟧.seen source.old) (⟦<F as Called>⟧.seen source.new) (reply_of response)) }
    ensures turn { IsReadInTurn (two file.now second.now) (⟦<F as Called>⟧.told source.old)
        (⟦<F as Called>⟧.seen source.old) (⟦<F as Called>⟧.seen source.new) }
    ensures kept { ⟦<F as Called>⟧.kept source.old source.new }
{
    match read_all(alloc, source, file, FILE_LIMIT) {
        Ok(bytes) => answer_second(alloc, settings, &bytes, second, source),
        Err(stop) => unread(alloc, stop, 0),
    }
}

/// Returns the reply of a command whose first file has these bytes, and reads its second file.
fn answer_second<F: Source>(
    alloc: Global,
    settings: &Settings,
    bytes: &[u8],
    second: &str,
    source: &mut F,
) -> Result<Response, AllocError>
    requires fits { (request_of settings.now).fits ≡ true }
    requires short { length bytes.now ≤ file_limit }
    ensures answer { IfOk result
        (λ response. IsReadReply 1 (⟦<F as Called>⟧.told source.old) second.now
        (λ text now r. IsSaid (IsReplyTo settings.now bytes.now text) now
        (⟦<F as Called>⟧.seen source.new) r)
        (⟦<F as Called>⟧.seen source.old) (⟦<F as Called>⟧.seen source.new) (reply_of response)) }
    ensures started { IsStartedOnce (⟦<F as Called>⟧.told source.old) second.now
        (⟦<F as Called>⟧.seen source.old) (⟦<F as Called>⟧.seen source.new) }
    ensures kept { ⟦<F as Called>⟧.kept source.old source.new }
{
    match read_all(alloc, source, second, FILE_LIMIT) {
        Ok(text) => respond(alloc, settings, bytes, &text),
        Err(stop) => unread(alloc, stop, 1),
    }
}

/// Returns the reply if the file with this number is not read to its end.
fn unread(alloc: Global, stop: ReadStop, number: u8) -> Result<Response, AllocError>
    ensures { IfOk result (λ response. IsUnread number stop (reply_of response)) }
{
    match stop {
        ReadStop::Failed => Ok(message(alloc, Fault::Read(number), Text::Fixed(b"read fault\n"))),
        ReadStop::TooLong => {
            let text = Text::Fixed(b"file too long\n");
            Ok(message(alloc, Fault::TooLong(number), text))
        }
        ReadStop::Memory(error) => Err(error),
    }
}

/// Writes the reply to a call.
fn deliver<K: Sink>(response: Response, sink: &mut K) -> Outcome
    ensures delivered { IsDelivered (reply_of response)
        (⟦<K as Written>⟧.done sink.old sink.new) result }
    ensures count { K.faults sink.old ≤ K.faults sink.new }
{
    match write_all(sink, response.text.as_bytes()) {
        Ok(written) => Outcome {
            status: response.status,
            fault: response.fault,
            answers: response.answers,
            written,
        },
        Err(cut) => Outcome {
            status: 6,
            fault: Fault::Write,
            answers: response.answers,
            written: cut.written,
        },
    }
}
