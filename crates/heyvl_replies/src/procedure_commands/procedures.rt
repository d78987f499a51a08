//! The procedure with a name, and the procedures that have to be programs.

ghost use Rattle.heyvl_acts.specs.Acts.{procedure_at};
ghost use Rattle.heyvl_acts.specs.PlainActs.{procedure_of, procedures_of};
ghost use Rattle.heyvl_acts.specs.Program.{why_no_program};
ghost use Rattle.heyvl_acts.specs.Rules.{IsCounted, MeetsAllRules};
ghost use Rattle.command_rules.specs.RunStarts.{IsFirstNoProgram, procedure_named};
ghost use Rattle.run_machine.specs.ConfigConditions.{ReachesPrograms};
ghost use Rattle.std.specs.List.{All, find};
ghost use Rattle.std.specs.Prelude.{IfOk, IfSome, MatchOption, is_some, length, ◌<◌, ◌^◌, ◌≡◌};
ghost use Rattle.std.specs.Str.{bytes_eq};

use heyvl_acts::{TProc, Typed};
use proc_contracts::{not_program, reach};
use std::alloc::{AllocError, Global};

/// Returns the procedure with the number `p`.
pub(crate) fn procedure(typed: &Typed, p: u32) -> &TProc
    requires there { p < length typed.now.procs.items }
    requires rules { MeetsAllRules typed.now }
    ensures value { procedure_of result.now ≡ procedure_at (procedures_of typed.now) p }
    ensures counted { IsCounted result.now }
{
    &typed.procs[p as usize]
}

pub(crate) fn is_coproc(typed: &Typed, p: u32) -> bool
    requires there { p < length typed.now.procs.items }
    requires rules { MeetsAllRules typed.now }
    ensures { result ≡ (procedure_at (procedures_of typed.now) p).co }
{
    procedure(typed, p).co
}

/// Returns whether the procedure has this name.
fn has_name(name: &[u8], procedure: &TProc) -> bool
    ensures { result ≡ bytes_eq name.now (procedure_of procedure.now).name }
{
    name == procedure.name.as_bytes()
}

/// Returns the number of the first procedure with this name.
pub(crate) fn procedure_named(typed: &Typed, name: &[u8]) -> Option<u32>
    requires { length typed.now.procs.items < 2 ^ 31 }
    ensures value { result ≡ procedure_named name.now (procedures_of typed.now) }
    ensures there { IfSome result (λ p. p < length typed.now.procs.items) }
{
    let mut number = 0;
    for procedure in &typed.procs {
        if has_name(name, procedure) {
            return Some(number);
        }
        number += 1;
    }
    None
}

/// Returns whether the procedure with the number `p` is no program.
fn is_no_program(typed: &Typed, p: u32) -> bool
    requires { p < length typed.now.procs.items }
    ensures { result ≡ is_some (why_no_program (procedure_at (procedures_of typed.now) p)) }
{
    not_program(typed, p).is_some()
}

/// Returns the first of these procedures that is no program.
fn first_no_program_of(typed: &Typed, all: &[u32]) -> Option<u32>
    requires { All (λ q. q < length typed.now.procs.items) all.now }
    ensures { result ≡ find (λ q.
        is_some (why_no_program (procedure_at (procedures_of typed.now) q))) all.now }
{
    for q in all {
        if is_no_program(typed, *q) {
            return Some(*q);
        }
    }
    None
}

/// Returns the first procedure that is no program: `p` itself, or else one that `p` reaches.
pub(crate) fn first_no_program(
    alloc: Global,
    typed: &Typed,
    p: u32,
) -> Result<Option<u32>, AllocError>
    requires there { p < length typed.now.procs.items }
    requires rules { MeetsAllRules typed.now }
    ensures first { IfOk result
        (λ found. MatchOption found (ReachesPrograms (procedures_of typed.now) p)
        (λ q. IsFirstNoProgram (procedures_of typed.now) p q)) }
    ensures below { IfOk result (λ found. IfSome found (λ q. q < length typed.now.procs.items)) }
{
    if is_no_program(typed, p) {
        return Ok(Some(p));
    }
    let reached = reach(alloc, typed, p)?;
    Ok(first_no_program_of(typed, &reached))
}
