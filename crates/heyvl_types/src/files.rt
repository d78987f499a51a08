//! Files: their typed procedures, or their first error.

ghost use Rattle.heyvl_acts.specs.PlainActs.{procedure_of, procedures_of};
ghost use Rattle.heyvl_acts.specs.Rules.{Each, IsCounted, MeetsAllRules};
ghost use Rattle.heyvl_syntax.specs.Procedures.{procedure, procedures};
ghost use Rattle.static_rules.specs.ArmedFiles.{HasArms};
ghost use Rattle.static_rules.specs.Files.{file_findings, procedures_findings, resolved, typed};
ghost use Rattle.static_rules.specs.PartCounts.{HaveFewParts};
ghost use Rattle.heyvl_types.specs.internal.Earlier.{is_before};
ghost use Rattle.std.specs.Prelude.{◌<◌, ◌^◌, ◌≡◌, ◌≤◌, IfOk, length};
ghost use Rattle.typed_expressions.specs.Answers.{Gives};
ghost use Rattle.typed_expressions.specs.Signatures.{find_call};

use crate::procedures::read_procedure;
use heyvl_acts::Typed;
use heyvl_places::Name;
use heyvl_syntax::File;
use resolved_laws::resolved_trees_meet_the_rules;
use std::alloc::Global;
use typed_expressions::{Calls, ResolveStop, calls_of};

/// Returns true if `name` calls a procedure before the one with this number.
fn is_before(calls: &Calls, number: u32, name: &Name) -> bool
    ensures { result ≡ is_before number (find_call calls.now name.now) }
{
    match calls.find(name) {
        None => false,
        Some(found) => found.number < number,
    }
}

/// Returns the typed procedures of a file, or its first static error.
fn read_procedures(alloc: Global, file: &File) -> Result<Typed, ResolveStop>
    requires few { length file.now.procs.items < 2 ^ 31 }
    requires parts { HaveFewParts (procedures file.now) }
    ensures gives { Gives procedures_of result (file_findings (procedures file.now))
        (resolved (procedures file.now)) }
    ensures counted { IfOk result (λ typed. Each IsCounted typed.procs.items) }
{
    let calls = calls_of(alloc, &file.procs)?;
    let mut procs = Vec::with_capacity(alloc, file.procs.len())?;
    let mut number = 0_u32;
    for proc in &file.procs {
        let named = is_before(&calls, number, &proc.name);
        procs.push(read_procedure(alloc, &calls, named, proc)?)?;
        number += 1;
    }
    Ok(Typed { procs })
}

/// Returns the typed tree of a file. If the file has at most 1,024 procedures, its typed tree
/// satisfies the static rules.
///
/// The file has fewer than 2^31 procedures, each with fewer than 2^31 variables and fewer than 2^31
/// loops, and each `if` has an arm.
///
/// # Errors
///
/// `Fault` with the first static error of the file, or `Memory`.
pub fn resolve(alloc: Global, file: &File) -> Result<Typed, ResolveStop>
    requires few { length file.now.procs.items < 2 ^ 31 }
    requires parts { HaveFewParts (procedures file.now) }
    requires armed { HasArms (procedures file.now) }
    ensures gives { Gives procedures_of result (file_findings (procedures file.now))
        (resolved (procedures file.now)) }
    ensures counted { IfOk result (λ typed. Each IsCounted typed.procs.items) }
    ensures rules { IfOk result (λ typed. length typed.procs.items ≤ 1024 → MeetsAllRules typed) }
{
    resolved_trees_meet_the_rules();
    read_procedures(alloc, file)
}
