//! `run FILE PROC SCRIPT`: the sums over the runs of a procedure under a script.

ghost use Rattle.heyvl_acts.specs.PlainActs.{procedures_of};
ghost use Rattle.heyvl_acts.specs.Rules.{MeetsAllRules};
ghost use Rattle.spelled_files.specs.Sources.{file_limit};
ghost use Rattle.command_rules.specs.Responses.{reply_of};
ghost use Rattle.command_rules.specs.RunStarts.{known_at, procedure_named};
ghost use Rattle.command_rules.specs.commands.Run.{IsRunOf, IsRunReply, ProgramsAreRun, TellsRun};
ghost use Rattle.command_rules.specs.commands.Run.{run_reply};
ghost use Rattle.run_machine.specs.ConfigConditions.{ReachesPrograms};
ghost use Rattle.run_script.specs.PlainScripts.{script_of};
ghost use Rattle.run_script.specs.Scripts.{Spells};
ghost use Rattle.std.specs.Prelude.{IfOk, List, Some, length, ◌<◌, ◌≡◌, ◌≤◌, ℕ};

use crate::procedure_commands::procedures::{first_no_program, procedure, procedure_named};
use crate::procedure_commands::replies::{known_at, no_procedure, no_program, script_fault};
use command_rules::{Fault, Response, Text, message, refused};
use heyvl_acts::Typed;
use heyvl_files::{spelling_is_unique, typed_source};
use heyvl_syntax::sources_have_no_fault;
use run_machine::begin;
use run_script::{Script, ScriptStop, read_script, start_state, stop_text, sums_text};
use run_unroller::{Unrolled, unroll};
use std::alloc::{AllocError, Global};

/// Returns the text of the sums, or of what stopped the run.
pub(crate) fn run_text(alloc: Global, answer: &Unrolled) -> Result<Vec<u8>, AllocError>
    ensures { IfOk result (λ text. text.items ≡ (run_reply answer.now).output) }
{
    match answer {
        Unrolled::Sums(sums) => sums_text(alloc, sums),
        Unrolled::Full(step) => stop_text(alloc, b"runs", *step),
        Unrolled::Deep(step) => stop_text(alloc, b"values", *step),
        Unrolled::Bits(step) => stop_text(alloc, b"bits", *step),
    }
}

/// Returns the fault of a run that was stopped, or `Nothing` if it has sums.
pub(crate) fn run_fault(answer: Unrolled) -> Fault
    ensures { result ≡ (run_reply answer).fault }
{
    match answer {
        Unrolled::Sums(_) => Fault::Nothing,
        stopped => Fault::Run(stopped),
    }
}

/// Returns the reply with the sums, or with what stopped the run.
fn run_answer(alloc: Global, answer: Unrolled) -> Result<Response, AllocError>
    ensures { IfOk result (λ response. reply_of response ≡ run_reply answer) }
{
    let text = run_text(alloc, &answer)?;
    Ok(message(alloc, run_fault(answer), Text::Made(text)))
}

/// Returns the reply with the result of the run of a procedure that reaches only programs.
fn run_programs(
    alloc: Global,
    typed: &Typed,
    p: u32,
    script: &Script,
) -> Result<Response, AllocError>
    requires there { p < length typed.now.procs.items }
    requires rules { MeetsAllRules typed.now }
    requires programs { ReachesPrograms (procedures_of typed.now) p }
    requires steps { script.now.steps ≤ 10000 }
    ensures { IfOk result (λ response.
        TellsRun (procedures_of typed.now) p (script_of script.now) (reply_of response)) }
{
    let state = start_state(alloc, procedure(typed, p), &script.settings)?;
    let first = begin(alloc, typed, p, &state)?;
    let answer = unroll(alloc, typed, p, &first, &script.decisions, script.steps)?;
    run_answer(alloc, answer)
}

/// Returns the reply to a procedure and a script.
fn run_at(alloc: Global, typed: &Typed, p: u32, script: &Script) -> Result<Response, AllocError>
    requires there { p < length typed.now.procs.items }
    requires rules { MeetsAllRules typed.now }
    requires steps { script.now.steps ≤ 10000 }
    ensures { IfOk result (λ response. (name bytes : List ℕ)
        → procedure_named name (procedures_of typed.now) ≡ Some p
        → Spells (known_at (procedures_of typed.now)
        (procedure_named name (procedures_of typed.now))) (script_of script.now) bytes
        → IsRunOf name bytes (procedures_of typed.now) (reply_of response)) }
{
    match first_no_program(alloc, typed, p)? {
        Some(q) => no_program(alloc, typed, q),
        None => run_programs(alloc, typed, p, script),
    }
}

/// Returns the reply to a typed file, the name of a procedure and a script, by the first case that
/// applies: the script's first invalid line; that no procedure has this name; the first procedure
/// reached that is no program; otherwise the result of the run.
fn run_typed(
    alloc: Global,
    typed: &Typed,
    name: &[u8],
    script: &[u8],
) -> Result<Response, AllocError>
    requires rules { MeetsAllRules typed.now }
    requires short { length script.now ≤ file_limit }
    ensures { IfOk result (λ response.
        IsRunOf name.now script.now (procedures_of typed.now) (reply_of response)) }
{
    let found = procedure_named(typed, name);
    let known = known_at(typed, found);
    match read_script(alloc, known, script) {
        Ok(read) => match found {
            Some(p) => run_at(alloc, typed, p, &read),
            None => Ok(no_procedure(alloc)),
        },
        Err(ScriptStop::Fault(line)) => script_fault(alloc, line),
        Err(ScriptStop::Memory(error)) => Err(error),
    }
}

/// Returns the reply of `run` to a file with these bytes, the name of a procedure and a script.
pub fn respond(
    alloc: Global,
    bytes: &[u8],
    name: &[u8],
    script: &[u8],
) -> Result<Response, AllocError>
    requires short { length bytes.now ≤ file_limit }
    requires short_script { length script.now ≤ file_limit }
    ensures { IfOk result (λ response.
        IsRunReply name.now bytes.now script.now (reply_of response)) }
{
    match typed_source(alloc, bytes) {
        Ok(typed) => run_typed(alloc, &typed, name, script),
        Err(stop) => refused(alloc, bytes, stop),
    }
}

/// If bytes spell a file without an error, in which the name is that of a procedure that reaches
/// only programs, and a text spells a script for it, `run` gives the result of its runs.
pub fn programs_are_run()
    ensures { ProgramsAreRun }
{
    sources_have_no_fault();
    spelling_is_unique();
}
