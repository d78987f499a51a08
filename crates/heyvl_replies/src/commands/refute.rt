//! `refute FILE PROC SCRIPT`: the least number of steps after which the runs of a coproc under a
//! script exceed its pre.

ghost use Rattle.heyvl_acts.specs.Acts.{procedure_at};
ghost use Rattle.heyvl_acts.specs.PlainActs.{procedures_of};
ghost use Rattle.heyvl_acts.specs.Rules.{Each, MeetsAllRules};
ghost use Rattle.heyvl_acts.specs.FormSizes.{FormsWithin};
ghost use Rattle.spelled_files.specs.Sources.{file_limit};
ghost use Rattle.command_rules.specs.Responses.{reply_of};
ghost use Rattle.command_rules.specs.RunStarts.{known_at, procedure_named};
ghost use Rattle.command_rules.specs.commands.Refute.{CoprocsAreSearched, IsRefuteOf};
ghost use Rattle.command_rules.specs.commands.Refute.{IsRefuteReply, TellsRefuted, refute_start};
ghost use Rattle.command_rules.specs.commands.Refute.{refuted_reply, shown_by, shown_of};
ghost use Rattle.command_rules.specs.commands.Refute.{with_answers};
ghost use Rattle.command_rules.specs.commands.Run.{run_reply};
ghost use Rattle.command_rules.specs.declared.faults.Fault.TheVariants as faults;
ghost use Rattle.refute_runs.specs.RefutedAnswers.{IsRefutedAnswer};
ghost use Rattle.refute_runs.specs.Violations.{NumbersAreOfRuns, ViolationIsOfRuns};
ghost use Rattle.run_machine.specs.ConfigConditions.{ReachesPrograms};
ghost use Rattle.run_script.specs.PlainScripts.{script_of};
ghost use Rattle.run_script.specs.Scripts.{Spells};
ghost use Rattle.std.specs.Prelude.{IfOk, List, Some, length, true, ◌<◌, ◌^◌, ◌≡◌, ◌≤◌, ℕ};

use crate::commands::run::{run_fault, run_text};
use crate::procedure_commands::procedures::{
    first_no_program, is_coproc, procedure, procedure_named,
};
use crate::procedure_commands::replies::{
    known_at, no_coproc, no_procedure, no_program, script_fault,
};
use command_rules::{Fault, Response, Text, fault_status, refused};
use heylo_formula::{GoalId, Val};
use heyvl_acts::Typed;
use heyvl_files::{spelling_is_unique, typed_source};
use heyvl_syntax::sources_have_no_fault;
use refute_runs::{Refuted, refute};
use run_script::{Script, ScriptStop, read_script, start_state_over, violation_text, within_text};
use run_unroller::Unrolled;
use std::alloc::{AllocError, Global};
use verdict_report::{Answer, Verdict};
use verify_core::verify;

/// Returns the values that a verdict shows, if the main goal of the bound is falsified; otherwise
/// none.
fn shown_by(verdict: &Verdict) -> &[Val]
    ensures { result.now ≡ shown_by verdict.now }
{
    match verdict {
        Verdict::NotVerified(GoalId::Main, state) => state,
        Verdict::NotVerified(_, _) => &[],
        Verdict::Verified | Verdict::Valid(_) | Verdict::Conditional(_) => &[],
        Verdict::Unknown(_, _) | Verdict::NoBody | Verdict::Unchecked(_, _) => &[],
    }
}

/// Returns the values that the answers show of the procedure with the number `p`.
fn shown_of(answers: &[Answer], p: u32) -> &[Val]
    requires { p < length answers.now }
    ensures { result.now ≡ shown_of answers.now p }
{
    shown_by(&answers[p as usize].verdict)
}

/// Returns the result of a search under a script, from the state in which the runs start.
fn searched(
    alloc: Global,
    typed: &Typed,
    p: u32,
    script: &Script,
    answers: &[Answer],
) -> Result<Refuted, AllocError>
    requires there { p < length typed.now.procs.items }
    requires rules { MeetsAllRules typed.now }
    requires programs { ReachesPrograms (procedures_of typed.now) p }
    requires coproc { (procedure_at (procedures_of typed.now) p).co ≡ true }
    requires steps { script.now.steps ≤ 10000 }
    requires each { length answers.now ≡ length typed.now.procs.items }
    ensures answer { IfOk result
        (λ answer. IsRefutedAnswer (procedures_of typed.now) p
        (refute_start (procedures_of typed.now) p (script_of script.now) answers.now)
        script.now.decisions.items script.now.steps answer) }
    ensures violation { IfOk result
        (λ answer. ViolationIsOfRuns (procedures_of typed.now) p
        (refute_start (procedures_of typed.now) p (script_of script.now) answers.now)
        script.now.decisions.items answer) }
    ensures numbers { IfOk result
        (λ answer. NumbersAreOfRuns (procedures_of typed.now) p
        (refute_start (procedures_of typed.now) p (script_of script.now) answers.now)
        script.now.decisions.items script.now.steps answer) }
{
    let shown = shown_of(answers, p);
    let state = start_state_over(alloc, procedure(typed, p), &script.settings, shown)?;
    refute(alloc, typed, p, &state, &script.decisions, script.steps)
}

/// Returns the line on the result of a search of at most `steps` steps in the procedure named
/// `name`.
fn refuted_text(
    alloc: Global,
    name: &[u8],
    steps: u32,
    answer: &Refuted,
) -> Result<Vec<u8>, AllocError>
    ensures { (answers : List Answer)
        → IfOk result
        (λ text. text.items ≡ (refuted_reply name.now steps answers answer.now).output) }
{
    match answer {
        Refuted::Violation(step, sum, pre) => violation_text(alloc, name, *step, *sum, *pre),
        Refuted::Within(sum, pre) => within_text(alloc, name, *pre, steps, *sum),
        Refuted::Stopped(_, stopped) => run_text(alloc, stopped),
    }
}

/// Returns the line on the result of a search of at most `steps` steps in the procedure with the
/// number `p`.
fn refuted_line(
    alloc: Global,
    typed: &Typed,
    p: u32,
    steps: u32,
    answer: &Refuted,
) -> Result<Vec<u8>, AllocError>
    requires there { p < length typed.now.procs.items }
    requires rules { MeetsAllRules typed.now }
    ensures { (answers : List Answer)
        → IfOk result
        (λ text. text.items
        ≡ (refuted_reply (procedure_at (procedures_of typed.now) p).name steps answers
        answer.now).output) }
{
    refuted_text(alloc, procedure(typed, p).name.as_bytes(), steps, answer)
}

/// Returns a reply with a text, answers and a status.
fn with_status(status: u8, answers: Vec<Answer>, text: Vec<u8>) -> Response
    ensures { reply_of result
        ≡ record {
          fault = faults.Nothing;
          answers = answers.items;
          output = text.items;
          status = status;
        } }
{
    Response {
        fault: Fault::Nothing,
        answers,
        text: Text::Made(text),
        status,
    }
}

/// Returns the reply with answers to runs that were stopped.
fn stopped_response(stopped: Unrolled, answers: Vec<Answer>, text: Vec<u8>) -> Response
    ensures { text.items ≡ (run_reply stopped).output
        → reply_of result ≡ with_answers answers.items (run_reply stopped) }
{
    let fault = run_fault(stopped);
    Response {
        status: fault_status(&fault),
        fault,
        answers,
        text: Text::Made(text),
    }
}

/// Returns the reply to the result of a search, with this text and these answers.
fn refuted_response(answer: Refuted, answers: Vec<Answer>, text: Vec<u8>) -> Response
    ensures { (name : List ℕ) (steps : ℕ)
        → text.items ≡ (refuted_reply name steps answers.items answer).output
        → reply_of result ≡ refuted_reply name steps answers.items answer }
{
    match answer {
        Refuted::Violation(_, _, _) => with_status(1, answers, text),
        Refuted::Within(_, _) => with_status(0, answers, text),
        Refuted::Stopped(_, stopped) => stopped_response(stopped, answers, text),
    }
}

/// Returns the reply to a coproc that reaches only programs, and a script.
fn refute_programs(
    alloc: Global,
    typed: &Typed,
    p: u32,
    script: &Script,
) -> Result<Response, AllocError>
    requires there { p < length typed.now.procs.items }
    requires rules { MeetsAllRules typed.now }
    requires small { Each (FormsWithin (2 ^ 27)) (procedures_of typed.now) }
    requires programs { ReachesPrograms (procedures_of typed.now) p }
    requires coproc { (procedure_at (procedures_of typed.now) p).co ≡ true }
    requires steps { script.now.steps ≤ 10000 }
    ensures { IfOk result (λ response.
        TellsRefuted (procedures_of typed.now) p (script_of script.now) (reply_of response)) }
{
    let whole = verify(alloc, typed)?;
    let answer = searched(alloc, typed, p, script, &whole.answers)?;
    let text = refuted_line(alloc, typed, p, script.steps, &answer)?;
    Ok(refuted_response(answer, whole.answers, text))
}

/// Returns the reply to a coproc and a script.
fn refute_coproc(
    alloc: Global,
    typed: &Typed,
    p: u32,
    script: &Script,
) -> Result<Response, AllocError>
    requires there { p < length typed.now.procs.items }
    requires rules { MeetsAllRules typed.now }
    requires small { Each (FormsWithin (2 ^ 27)) (procedures_of typed.now) }
    requires coproc { (procedure_at (procedures_of typed.now) p).co ≡ true }
    requires steps { script.now.steps ≤ 10000 }
    ensures { IfOk result (λ response. (name bytes : List ℕ)
        → procedure_named name (procedures_of typed.now) ≡ Some p
        → Spells (known_at (procedures_of typed.now)
        (procedure_named name (procedures_of typed.now))) (script_of script.now) bytes
        → IsRefuteOf name bytes (procedures_of typed.now) (reply_of response)) }
{
    match first_no_program(alloc, typed, p)? {
        Some(q) => no_program(alloc, typed, q),
        None => refute_programs(alloc, typed, p, script),
    }
}

/// Returns the reply to a procedure and a script.
fn refute_at(alloc: Global, typed: &Typed, p: u32, script: &Script) -> Result<Response, AllocError>
    requires there { p < length typed.now.procs.items }
    requires rules { MeetsAllRules typed.now }
    requires small { Each (FormsWithin (2 ^ 27)) (procedures_of typed.now) }
    requires steps { script.now.steps ≤ 10000 }
    ensures { IfOk result (λ response. (name bytes : List ℕ)
        → procedure_named name (procedures_of typed.now) ≡ Some p
        → Spells (known_at (procedures_of typed.now)
        (procedure_named name (procedures_of typed.now))) (script_of script.now) bytes
        → IsRefuteOf name bytes (procedures_of typed.now) (reply_of response)) }
{
    if is_coproc(typed, p) {
        refute_coproc(alloc, typed, p, script)
    } else {
        no_coproc(alloc, typed, p)
    }
}

/// Returns the reply to a typed file, the name of a procedure and a script, by the first case that
/// applies: the script's first invalid line; that no procedure has this name; that it is no coproc;
/// the first procedure reached that is no program; otherwise the result of the search.
fn refute_typed(
    alloc: Global,
    typed: &Typed,
    name: &[u8],
    script: &[u8],
) -> Result<Response, AllocError>
    requires rules { MeetsAllRules typed.now }
    requires small { Each (FormsWithin (2 ^ 27)) (procedures_of typed.now) }
    requires short { length script.now ≤ file_limit }
    ensures { IfOk result (λ response.
        IsRefuteOf name.now script.now (procedures_of typed.now) (reply_of response)) }
{
    let found = procedure_named(typed, name);
    let known = known_at(typed, found);
    match read_script(alloc, known, script) {
        Ok(read) => match found {
            Some(p) => refute_at(alloc, typed, p, &read),
            None => Ok(no_procedure(alloc)),
        },
        Err(ScriptStop::Fault(line)) => script_fault(alloc, line),
        Err(ScriptStop::Memory(error)) => Err(error),
    }
}

/// Returns the reply of `refute` to a file with these bytes, the name of a procedure and a script.
pub fn respond(
    alloc: Global,
    bytes: &[u8],
    name: &[u8],
    script: &[u8],
) -> Result<Response, AllocError>
    requires short { length bytes.now ≤ file_limit }
    requires short_script { length script.now ≤ file_limit }
    ensures { IfOk result (λ response.
        IsRefuteReply name.now bytes.now script.now (reply_of response)) }
{
    match typed_source(alloc, bytes) {
        Ok(typed) => refute_typed(alloc, &typed, name, script),
        Err(stop) => refused(alloc, bytes, stop),
    }
}

/// If bytes spell a file without an error, in which the name is that of a coproc that reaches only
/// programs, and a text spells a script for it, `refute` gives the result of the search.
pub fn coprocs_are_searched()
    ensures { CoprocsAreSearched }
{
    sources_have_no_fault();
    spelling_is_unique();
}
