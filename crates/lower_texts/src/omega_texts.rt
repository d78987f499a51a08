//! The texts of answers on omega pairs.

ghost use Rattle.heyvl_acts.specs.Acts.{procedure_at};
ghost use Rattle.heyvl_acts.specs.FormSizes.{FormsWithin};
ghost use Rattle.heyvl_acts.specs.PlainActs.{procedures_of};
ghost use Rattle.heyvl_acts.specs.Rules.{Each, MeetsAllRules};
ghost use Rattle.lower_goals.specs.OmegaPairs.{OmegaPair};
ghost use Rattle.lower_texts.specs.OmegaTexts.{HasPair, IsFailsText, IsOmegaText, IsUnknownText};
ghost use Rattle.lower_texts.specs.OmegaTexts.{holds_text, step_text};
ghost use Rattle.std.specs.Prelude.{IfOk, OnOk, codes, length, ◌++◌, ◌<◌, ◌^◌, ◌≡◌};

use crate::causes::write_placed;
use crate::scopes::shown_variables;
use goal_answers::Cause;
use heylo_formula::Val;
use heyvl_acts::Typed;
use lower_goals::{Omega, Step, omega_goal};
use std::alloc::{AllocError, Global};
use verdict_report::{names_of_made, write_state};

/// Appends the name of the goal of a step.
fn write_step(text: &mut Vec<u8>, step: Step) -> Result<(), AllocError>
    ensures { OnOk result (text.new.items ≡ text.old.items ++ step_text step) }
{
    match step {
        Step::One => Ok(text.extend_from_slice(b"at most 1")?),
        Step::Base => Ok(text.extend_from_slice(b"base")?),
        Step::Turn => Ok(text.extend_from_slice(b"turn")?),
    }
}

/// Returns the beginning `P: omega: WHAT (STEP): ` of a line.
fn begun(alloc: Global, name: &[u8], what: &[u8], step: Step) -> Result<Vec<u8>, AllocError>
    ensures { IfOk result (λ text. text.items ≡ name.now ++ codes ": omega: " ++ what.now
        ++ codes " (" ++ step_text step ++ codes "): ") }
{
    let mut text = Vec::from_slice(alloc, name)?;
    text.extend_from_slice(b": omega: ")?;
    text.extend_from_slice(what)?;
    text.extend_from_slice(b" (")?;
    write_step(&mut text, step)?;
    text.extend_from_slice(b"): ")?;
    Ok(text)
}

/// Returns the line on a pair whose goals are proved.
fn holds_line(alloc: Global, name: &[u8]) -> Result<Vec<u8>, AllocError>
    ensures { IfOk result (λ text. text.items ≡ holds_text name.now) }
{
    let mut text = Vec::from_slice(alloc, name)?;
    text.extend_from_slice(b": omega: holds\n")?;
    Ok(text)
}

/// Returns the line on a goal that is falsified in this state.
fn fails_line(
    alloc: Global,
    typed: &Typed,
    p: u32,
    q: u32,
    step: Step,
    state: &[Val],
) -> Result<Vec<u8>, AllocError>
    requires first { p < length typed.now.procs.items }
    requires second { q < length typed.now.procs.items }
    requires rules { MeetsAllRules typed.now }
    requires small { Each (FormsWithin (2 ^ 27)) (procedures_of typed.now) }
    requires pair { OmegaPair (procedure_at (procedures_of typed.now) p)
        (procedure_at (procedures_of typed.now) q) }
    ensures { IfOk result (λ text.
        IsFailsText (procedures_of typed.now) p q step state.now text.items) }
{
    let procedure = &typed.procs[p as usize];
    let made = omega_goal(alloc, typed, p, q, step)?;
    let shown = shown_variables(alloc, procedure)?;
    let (names, own) = names_of_made(&made);
    let mut text = begun(alloc, procedure.name.as_bytes(), b"fails", step)?;
    write_state(alloc, &mut text, names, own, &shown, state)?;
    text.extend_from_slice(b"\n")?;
    Ok(text)
}

/// Returns the line on a goal that is not decided for this cause.
fn unknown_line(
    alloc: Global,
    bytes: &[u8],
    typed: &Typed,
    p: u32,
    q: u32,
    step: Step,
    cause: &Cause,
) -> Result<Vec<u8>, AllocError>
    requires short { length bytes.now < 2 ^ 31 }
    requires first { p < length typed.now.procs.items }
    requires second { q < length typed.now.procs.items }
    requires rules { MeetsAllRules typed.now }
    requires small { Each (FormsWithin (2 ^ 27)) (procedures_of typed.now) }
    requires pair { OmegaPair (procedure_at (procedures_of typed.now) p)
        (procedure_at (procedures_of typed.now) q) }
    ensures { IfOk result (λ text.
        IsUnknownText bytes.now (procedures_of typed.now) p q step cause.now text.items) }
{
    let procedure = &typed.procs[p as usize];
    let made = omega_goal(alloc, typed, p, q, step)?;
    let (names, own) = names_of_made(&made);
    let mut text = begun(alloc, procedure.name.as_bytes(), b"unknown", step)?;
    write_placed(&mut text, bytes, names, own, cause)?;
    text.extend_from_slice(b"\n")?;
    Ok(text)
}

/// Returns the line of the answer on the procedures `p` and `q` as an omega pair, in a file with
/// these bytes:
///
/// - `P: omega: holds`
/// - `P: omega: fails (STEP): STATE`, where the number of iterations has the name of the last input
///   of `q`
/// - `P: omega: unknown (STEP): CAUSE`
/// - `not an omega pair`
pub fn omega_text(
    alloc: Global,
    bytes: &[u8],
    typed: &Typed,
    p: u32,
    q: u32,
    answer: &Omega,
) -> Result<Vec<u8>, AllocError>
    requires short { length bytes.now < 2 ^ 31 }
    requires first { p < length typed.now.procs.items }
    requires second { q < length typed.now.procs.items }
    requires rules { MeetsAllRules typed.now }
    requires small { Each (FormsWithin (2 ^ 27)) (procedures_of typed.now) }
    requires pair { HasPair (procedures_of typed.now) p q answer.now }
    ensures { IfOk result (λ text.
        IsOmegaText bytes.now (procedures_of typed.now) p q answer.now text.items) }
{
    match answer {
        Omega::Holds => holds_line(alloc, typed.procs[p as usize].name.as_bytes()),
        Omega::Fails(step, state) => fails_line(alloc, typed, p, q, *step, state),
        Omega::Unknown(step, cause) => unknown_line(alloc, bytes, typed, p, q, *step, cause),
        Omega::Shape => Vec::from_slice(alloc, b"not an omega pair\n"),
    }
}
