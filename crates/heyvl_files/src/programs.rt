//! The files of programs of guarded commands.

ghost use Rattle.spelled_files.specs.Programs.{HasProgramSums, IsProgramFile, IsProgramStop};
ghost use Rattle.spelled_files.specs.Programs.{IsTranslationStop};
ghost use Rattle.spelled_files.specs.Sources.{file_limit};
ghost use Rattle.heyvl_syntax.specs.Procedures.{procedures};
ghost use Rattle.pgcl_front.specs.Sources.{IsPgclSource};
ghost use Rattle.std.specs.Prelude.{IfOk, MatchResult, length, ◌≤◌};

use heyvl_syntax::{File, LexStop, lex};
use heyvl_types::{ResolveStop, resolve};
use pgcl_front::{PgclStop, translate};
use spelled_files::{SourceStop, program_files_have_sums, token_place};
use std::alloc::Global;

/// Returns the file of the program with these bytes, or the first of its errors of bytes, tokens
/// and names.
fn translated_file(alloc: Global, bytes: &[u8]) -> Result<File, SourceStop>
    requires { length bytes.now ≤ file_limit }
    ensures { MatchResult result (λ file. IsPgclSource bytes.now (procedures file))
        (λ stop. IsTranslationStop bytes.now stop) }
{
    let tokens = match lex(alloc, bytes) {
        Ok(tokens) => tokens,
        Err(LexStop::Fault(number, place)) => return Err(SourceStop::Fault(number, place)),
        Err(LexStop::Memory(error)) => return Err(SourceStop::Memory(error)),
    };
    match translate(alloc, &tokens) {
        Ok(file) => Ok(file),
        Err(PgclStop::Fault(number, index)) => {
            let place = token_place(bytes, &tokens, index);
            Err(SourceStop::Fault(number, place))
        }
        Err(PgclStop::Memory(error)) => Err(SourceStop::Memory(error)),
    }
}

/// Returns the file of the program of guarded commands with these bytes. The file has no static
/// error. It has the sums of the program's runs, and so has each file that its canonical text
/// spells.
///
/// # Errors
///
/// - `Fault`: the first error of the program, at its place: 1 to 3, then 5, 30 and 31, then the
///   static ones of the file.
/// - `Memory`: memory ran out.
pub fn program_file(alloc: Global, bytes: &[u8]) -> Result<File, SourceStop>
    requires { length bytes.now ≤ file_limit }
    ensures made { MatchResult result (λ file. IsProgramFile bytes.now (procedures file))
        (λ stop. IsProgramStop bytes.now stop) }
    ensures sums { IfOk result (λ file. HasProgramSums bytes.now (procedures file)) }
{
    program_files_have_sums();
    let file = match translated_file(alloc, bytes) {
        Ok(file) => file,
        Err(stop) => return Err(stop),
    };
    match resolve(alloc, &file) {
        Ok(_) => Ok(file),
        Err(ResolveStop::Fault(number, place)) => Err(SourceStop::Fault(number, place)),
        Err(ResolveStop::Memory(error)) => Err(SourceStop::Memory(error)),
    }
}
