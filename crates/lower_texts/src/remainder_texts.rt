//! The texts of answers on remainder pairs.

ghost use Rattle.heyvl_acts.specs.Acts.{procedure_at};
ghost use Rattle.heyvl_acts.specs.PlainActs.{procedures_of};
ghost use Rattle.heyvl_acts.specs.Rules.{MeetsAllRules};
ghost use Rattle.lower_goals.specs.RemainderPairs.{RemainderPair};
ghost use Rattle.lower_texts.specs.RemainderTexts.{HasPair, IsFailsText, IsRemainderText};
ghost use Rattle.lower_texts.specs.RemainderTexts.{IsUnknownText, bound_text, remainder_line};
ghost use Rattle.std.specs.Prelude.{IfOk, codes, length, ◌++◌, ◌<◌, ◌^◌, ◌≡◌};

use crate::causes::write_placed;
use goal_answers::Cause;
use heylo_formula::Val;
use heyvl_acts::Typed;
use heyvl_num::Frac;
use lower_goals::{Remainder, remainder_goal};
use number_texts::write_fraction;
use std::alloc::{AllocError, Global};
use verdict_report::{interface_of, names_of_made, write_state};

/// Returns the beginning of a line: `P: remainder: ` and `what`.
fn begun(alloc: Global, name: &[u8], what: &[u8]) -> Result<Vec<u8>, AllocError>
    ensures { IfOk result (λ text. text.items ≡ name.now ++ codes ": remainder: " ++ what.now) }
{
    let mut text = Vec::from_slice(alloc, name)?;
    text.extend_from_slice(b": remainder: ")?;
    text.extend_from_slice(what)?;
    Ok(text)
}

/// Returns the line `P: remainder: WHAT`.
fn line(alloc: Global, name: &[u8], what: &[u8]) -> Result<Vec<u8>, AllocError>
    ensures { IfOk result (λ text. text.items ≡ remainder_line name.now what.now) }
{
    let mut text = begun(alloc, name, what)?;
    text.extend_from_slice(b"\n")?;
    Ok(text)
}

/// Returns the line on a pair that holds: the remainder is the pre of the other procedure over the
/// step times m.
fn holds_line(alloc: Global, name: &[u8], other: &[u8], step: Frac) -> Result<Vec<u8>, AllocError>
    ensures { IfOk result (λ text. text.items
        ≡ remainder_line name.now (bound_text other.now step)) }
{
    let mut text = begun(alloc, name, b"pre of ")?;
    text.extend_from_slice(other)?;
    text.extend_from_slice(b" over ")?;
    write_fraction(&mut text, step)?;
    text.extend_from_slice(b" * m\n")?;
    Ok(text)
}

/// Returns the line on a goal that is falsified in this state.
fn fails_line(
    alloc: Global,
    typed: &Typed,
    p: u32,
    q: u32,
    state: &[Val],
) -> Result<Vec<u8>, AllocError>
    requires first { p < length typed.now.procs.items }
    requires second { q < length typed.now.procs.items }
    requires rules { MeetsAllRules typed.now }
    requires pair { RemainderPair (procedure_at (procedures_of typed.now) p)
        (procedure_at (procedures_of typed.now) q) }
    ensures { IfOk result (λ text. IsFailsText (procedures_of typed.now) p q state.now text.items) }
{
    let made = remainder_goal(alloc, typed, p, q)?;
    let shown = interface_of(alloc, typed, p)?;
    let (names, own) = names_of_made(&made);
    let name = typed.procs[p as usize].name.as_bytes();
    let mut text = begun(alloc, name, b"fails (start): ")?;
    write_state(alloc, &mut text, names, own, &shown, state)?;
    text.extend_from_slice(b"\n")?;
    Ok(text)
}

/// Returns the line on a goal that is not decided for this cause.
fn unknown_line(
    alloc: Global,
    bytes: &[u8],
    typed: &Typed,
    p: u32,
    q: u32,
    cause: &Cause,
) -> Result<Vec<u8>, AllocError>
    requires short { length bytes.now < 2 ^ 31 }
    requires first { p < length typed.now.procs.items }
    requires second { q < length typed.now.procs.items }
    requires rules { MeetsAllRules typed.now }
    requires pair { RemainderPair (procedure_at (procedures_of typed.now) p)
        (procedure_at (procedures_of typed.now) q) }
    ensures { IfOk result (λ text.
        IsUnknownText bytes.now (procedures_of typed.now) p q cause.now text.items) }
{
    let made = remainder_goal(alloc, typed, p, q)?;
    let (names, own) = names_of_made(&made);
    let name = typed.procs[p as usize].name.as_bytes();
    let mut text = begun(alloc, name, b"unknown (start): ")?;
    write_placed(&mut text, bytes, names, own, cause)?;
    text.extend_from_slice(b"\n")?;
    Ok(text)
}

/// Returns the line of the answer on the procedures `p` and `q` as a remainder pair, in a file with
/// these bytes. It is `not a remainder pair`, or `P: remainder: ` followed by one of
///
/// - `pre of NAME over E * m`
/// - `not verified`
/// - `not ranked`
/// - `fails (start): STATE`
/// - `unknown (start): CAUSE`
pub fn remainder_text(
    alloc: Global,
    bytes: &[u8],
    typed: &Typed,
    p: u32,
    q: u32,
    answer: &Remainder,
) -> Result<Vec<u8>, AllocError>
    requires short { length bytes.now < 2 ^ 31 }
    requires first { p < length typed.now.procs.items }
    requires second { q < length typed.now.procs.items }
    requires rules { MeetsAllRules typed.now }
    requires pair { HasPair (procedures_of typed.now) p q answer.now }
    ensures { IfOk result (λ text.
        IsRemainderText bytes.now (procedures_of typed.now) p q answer.now text.items) }
{
    let name = typed.procs[p as usize].name.as_bytes();
    match answer {
        Remainder::Holds(step) => {
            let other = typed.procs[q as usize].name.as_bytes();
            holds_line(alloc, name, other, *step)
        }
        Remainder::NotVerified => line(alloc, name, b"not verified"),
        Remainder::NotRanked => line(alloc, name, b"not ranked"),
        Remainder::Fails(state) => fails_line(alloc, typed, p, q, state),
        Remainder::Unknown(cause) => unknown_line(alloc, bytes, typed, p, q, cause),
        Remainder::Shape => Vec::from_slice(alloc, b"not a remainder pair\n"),
    }
}
