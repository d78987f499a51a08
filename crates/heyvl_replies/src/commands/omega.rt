//! `omega FILE PROC NAME`: whether the pre of NAME is an omega invariant of the loop of PROC.

ghost use Rattle.heyvl_acts.specs.PlainActs.{procedures_of};
ghost use Rattle.spelled_files.specs.Sources.{IsReady, file_limit};
ghost use Rattle.command_rules.specs.Responses.{reply_of};
ghost use Rattle.command_rules.specs.commands.Omega.{IsOmegaOf, IsOmegaReply};
ghost use Rattle.command_rules.specs.commands.Omega.{OmegaPairsAreAnswered, TellsOmega};
ghost use Rattle.command_rules.specs.commands.Omega.{omega_reply};
ghost use Rattle.std.specs.Prelude.{IfOk, length, ◌<◌, ◌≡◌, ◌≤◌};

use crate::procedure_commands::procedures::procedure_named;
use crate::procedure_commands::replies::no_procedure;
use command_rules::{Fault, Response, Text, message, refused, stated};
use heyvl_acts::Typed;
use heyvl_files::{spelling_is_unique, typed_source};
use heyvl_syntax::sources_have_no_fault;
use lower_goals::Omega;
use lower_rules::omega;
use lower_texts::omega_text;
use std::alloc::{AllocError, Global};

/// Returns the reply with the line on an answer, and its status.
fn reply(alloc: Global, answer: &Omega, text: Vec<u8>) -> Response
    ensures { reply_of result ≡ omega_reply answer.now text.items }
{
    match answer {
        Omega::Holds => stated(alloc, 0, text),
        Omega::Fails(_, _) => stated(alloc, 1, text),
        Omega::Unknown(_, _) => stated(alloc, 2, text),
        Omega::Shape => message(alloc, Fault::Shape, Text::Made(text)),
    }
}

/// Returns the reply about the procedures `p` and `q`.
fn of_pair(
    alloc: Global,
    bytes: &[u8],
    typed: &Typed,
    p: u32,
    q: u32,
) -> Result<Response, AllocError>
    requires short { length bytes.now ≤ file_limit }
    requires ready { IsReady bytes.now typed.now }
    requires first { p < length typed.now.procs.items }
    requires second { q < length typed.now.procs.items }
    ensures { IfOk result (λ response.
        TellsOmega bytes.now (procedures_of typed.now) p q (reply_of response)) }
{
    let answer = omega(alloc, typed, p, q)?;
    let text = omega_text(alloc, bytes, typed, p, q, &answer)?;
    Ok(reply(alloc, &answer, text))
}

/// Returns the reply about the procedures with these names: that no procedure has one of the names,
/// or the answer on the pair.
fn of_names(
    alloc: Global,
    bytes: &[u8],
    typed: &Typed,
    procedure: &[u8],
    name: &[u8],
) -> Result<Response, AllocError>
    requires short { length bytes.now ≤ file_limit }
    requires ready { IsReady bytes.now typed.now }
    ensures { IfOk result (λ response.
        IsOmegaOf procedure.now name.now bytes.now (procedures_of typed.now) (reply_of response)) }
{
    let first = procedure_named(typed, procedure);
    let second = procedure_named(typed, name);
    match first {
        Some(p) => match second {
            Some(q) => of_pair(alloc, bytes, typed, p, q),
            None => Ok(no_procedure(alloc)),
        },
        None => Ok(no_procedure(alloc)),
    }
}

/// Returns the reply of `omega` to a file with these bytes and the names of two procedures.
pub fn respond(
    alloc: Global,
    bytes: &[u8],
    procedure: &[u8],
    name: &[u8],
) -> Result<Response, AllocError>
    requires { length bytes.now ≤ file_limit }
    ensures { IfOk result (λ response.
        IsOmegaReply procedure.now name.now bytes.now (reply_of response)) }
{
    match typed_source(alloc, bytes) {
        Ok(typed) => of_names(alloc, bytes, &typed, procedure, name),
        Err(stop) => refused(alloc, bytes, stop),
    }
}

/// If bytes spell a file without an error that has both procedures, `omega` gives the answer on
/// them.
pub fn omega_pairs_are_answered()
    ensures { OmegaPairsAreAnswered }
{
    sources_have_no_fault();
    spelling_is_unique();
}
