//! Files of HeyVL that bytes spell.

ghost use Rattle.heyvl_acts.specs.PlainActs.{procedures_of};
ghost use Rattle.spelled_files.specs.Sources.{IsReady, IsSourceStop, IsSpellingStop, IsTypedSource};
ghost use Rattle.spelled_files.specs.Sources.{file_limit};
ghost use Rattle.heyvl_syntax.specs.Procedures.{procedures};
ghost use Rattle.heyvl_syntax.specs.SourceFaults.{IsSource};
ghost use Rattle.static_rules.specs.ArmedFiles.{HasArms};
ghost use Rattle.static_rules.specs.Files.{file_findings, resolved};
ghost use Rattle.static_rules.specs.PartCounts.{HaveFewParts};
ghost use Rattle.std.specs.Prelude.{IfOk, List, MatchResult, length, ◌<◌, ◌^◌, ◌≡◌, ◌≤◌, ℕ};
ghost use Rattle.typed_expressions.specs.Answers.{Gives};

use heyvl_acts::Typed;
use heyvl_parse::{ParseStop, parse};
use heyvl_syntax::{File, LexStop, lex};
use heyvl_types::{ResolveStop, resolve};
use spelled_files::{SourceStop, files_have_small_forms, files_stand_within, token_place};
use std::alloc::Global;

/// Returns the file that these bytes spell.
///
/// # Errors
///
/// - `Fault`: the first of the errors 1 to 6, at its place.
/// - `Memory`: memory ran out.
pub fn spelled_file(alloc: Global, bytes: &[u8]) -> Result<File, SourceStop>
    requires { length bytes.now ≤ file_limit }
    ensures { MatchResult result (λ file. IsSource bytes.now (procedures file))
        (λ stop. IsSpellingStop bytes.now stop) }
{
    let tokens = match lex(alloc, bytes) {
        Ok(tokens) => tokens,
        Err(LexStop::Fault(number, place)) => return Err(SourceStop::Fault(number, place)),
        Err(LexStop::Memory(error)) => return Err(SourceStop::Memory(error)),
    };
    match parse(alloc, &tokens) {
        Ok(file) => Ok(file),
        Err(ParseStop::Fault(number, index)) => {
            let place = token_place(bytes, &tokens, index);
            Err(SourceStop::Fault(number, place))
        }
        Err(ParseStop::Memory(error)) => Err(SourceStop::Memory(error)),
    }
}

/// Returns the typed tree of a file, or its first static error. The file has few procedures,
/// variables and loops, and each `if` has an arm.
fn typed_file(alloc: Global, file: &File) -> Result<Typed, ResolveStop>
    requires few { length file.now.procs.items < 2 ^ 31 }
    requires parts { HaveFewParts (procedures file.now) }
    requires armed { HasArms (procedures file.now) }
    ensures gives { Gives procedures_of result (file_findings (procedures file.now))
        (resolved (procedures file.now)) }
    ensures ready { (bytes : List ℕ) → length bytes ≤ file_limit
        → IsSource bytes (procedures file.now) → IfOk result (λ typed. IsReady bytes typed) }
{
    files_have_small_forms();
    files_stand_within();
    resolve(alloc, file)
}

/// Returns the typed tree of the file that these bytes spell. Every command may use it.
///
/// # Errors
///
/// - `Fault`: the error of the file, at its place: the first of 1 to 6, otherwise the first static
///   one.
/// - `Memory`: memory ran out.
pub fn typed_source(alloc: Global, bytes: &[u8]) -> Result<Typed, SourceStop>
    requires { length bytes.now ≤ file_limit }
    ensures { MatchResult result (λ typed. IsTypedSource bytes.now typed)
        (λ stop. IsSourceStop bytes.now stop) }
{
    let file = spelled_file(alloc, bytes)?;
    match typed_file(alloc, &file) {
        Ok(typed) => Ok(typed),
        Err(ResolveStop::Fault(number, place)) => Err(SourceStop::Fault(number, place)),
        Err(ResolveStop::Memory(error)) => Err(SourceStop::Memory(error)),
    }
}
