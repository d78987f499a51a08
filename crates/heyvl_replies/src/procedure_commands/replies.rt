//! The variables that a script may set, and refusals of commands that name a procedure.

ghost use Rattle.heyvl_acts.specs.PlainActs.{procedures_of};
ghost use Rattle.heyvl_acts.specs.Rules.{MeetsAllRules};
ghost use Rattle.command_rules.specs.Responses.{reply_of};
ghost use Rattle.command_rules.specs.RunStarts.{known_at};
ghost use Rattle.command_rules.specs.commands.Refute.{no_coproc as no_coproc_reply};
ghost use Rattle.command_rules.specs.commands.Run.{no_procedure as no_procedure_reply};
ghost use Rattle.command_rules.specs.commands.Run.{no_program as no_program_reply};
ghost use Rattle.command_rules.specs.commands.Run.{script_fault as script_fault_reply};
ghost use Rattle.run_script.specs.PlainScripts.{known_in};
ghost use Rattle.std.specs.Prelude.{IfOk, IfSome, length, ◌<◌, ◌≡◌};

use crate::procedure_commands::procedures::procedure;
use crate::procedure_commands::texts::{no_coproc_text, no_program_text};
use command_rules::{Fault, Response, Text, message};
use heyvl_acts::{Typed, VarInfo};
use run_script::{known_variables, script_fault_text};
use std::alloc::{AllocError, Global};

/// Returns the variables that a script may set: the inputs and outputs of the procedure, if there
/// is one.
pub(crate) fn known_at(typed: &Typed, found: Option<u32>) -> Option<&[VarInfo]>
    requires there { IfSome found (λ p. p < length typed.now.procs.items) }
    requires rules { MeetsAllRules typed.now }
    ensures { known_in result ≡ known_at (procedures_of typed.now) found }
{
    match found {
        Some(p) => Some(known_variables(procedure(typed, p))),
        None => None,
    }
}

/// Returns the reply to an invalid script, whose first invalid line is `line`.
pub(crate) fn script_fault(alloc: Global, line: u32) -> Result<Response, AllocError>
    ensures { IfOk result (λ response. reply_of response ≡ script_fault_reply line) }
{
    let text = script_fault_text(alloc, line)?;
    Ok(message(alloc, Fault::Script(line), Text::Made(text)))
}

/// Returns the reply to a procedure that is no program.
pub(crate) fn no_program(alloc: Global, typed: &Typed, q: u32) -> Result<Response, AllocError>
    requires there { q < length typed.now.procs.items }
    requires rules { MeetsAllRules typed.now }
    ensures { IfOk result (λ response. reply_of response
        ≡ no_program_reply (procedures_of typed.now) q) }
{
    let text = no_program_text(alloc, procedure(typed, q).name.as_bytes())?;
    Ok(message(alloc, Fault::NotProgram(q), Text::Made(text)))
}

/// Returns the reply to a procedure that is no coproc.
pub(crate) fn no_coproc(alloc: Global, typed: &Typed, p: u32) -> Result<Response, AllocError>
    requires there { p < length typed.now.procs.items }
    requires rules { MeetsAllRules typed.now }
    ensures { IfOk result (λ response. reply_of response
        ≡ no_coproc_reply (procedures_of typed.now) p) }
{
    let text = no_coproc_text(alloc, procedure(typed, p).name.as_bytes())?;
    Ok(message(alloc, Fault::Shape, Text::Made(text)))
}

/// Returns the reply to a name that no procedure has.
pub(crate) fn no_procedure(alloc: Global) -> Response
    ensures { reply_of result ≡ no_procedure_reply }
{
    message(
        alloc,
        Fault::NoProcedure,
        Text::Fixed(b"no such procedure\n"),
    )
}
