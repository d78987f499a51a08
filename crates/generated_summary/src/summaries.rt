//! The summary of answers.

ghost use Rattle.command_rules.specs.Summaries.{how_many, is_not_verified, is_other, is_verified};
ghost use Rattle.command_rules.specs.Summaries.{summary};
ghost use Rattle.std.specs.Prelude.{IfOk, OnOk, decimal, ◌++◌, ◌≡◌};

use number_texts::write_number;
use std::alloc::{AllocError, Global};
use verdict_report::{Answer, Verdict};

fn is_verified(verdict: &Verdict) -> bool
    ensures { result ≡ is_verified verdict.now }
{
    matches!(verdict, Verdict::Verified)
}

fn is_not_verified(verdict: &Verdict) -> bool
    ensures { result ≡ is_not_verified verdict.now }
{
    matches!(verdict, Verdict::NotVerified(_, _))
}

fn is_other(verdict: &Verdict) -> bool
    ensures { result ≡ is_other verdict.now }
{
    !is_verified(verdict) && !is_not_verified(verdict)
}

fn verified(answers: &[Answer]) -> usize
    ensures { result ≡ how_many is_verified answers.now }
{
    answers
        .iter()
        .filter(|answer| is_verified(&answer.verdict))
        .count()
}

fn not_verified(answers: &[Answer]) -> usize
    ensures { result ≡ how_many is_not_verified answers.now }
{
    answers
        .iter()
        .filter(|answer| is_not_verified(&answer.verdict))
        .count()
}

fn others(answers: &[Answer]) -> usize
    ensures { result ≡ how_many is_other answers.now }
{
    answers
        .iter()
        .filter(|answer| is_other(&answer.verdict))
        .count()
}

/// Appends a number and the text `counted`.
fn write_count(text: &mut Vec<u8>, count: usize, counted: &[u8]) -> Result<(), AllocError>
    ensures { OnOk result (text.new.items ≡ text.old.items ++ (decimal count ++ counted.now)) }
{
    write_number(text, count)?;
    text.extend_from_slice(counted)
}

/// Returns the summary of the answers on a generated text of `lines` lines.
pub(crate) fn summary(alloc: Global, lines: u32, answers: &[Answer]) -> Result<Vec<u8>, AllocError>
    ensures { IfOk result (λ text. text.items ≡ summary lines answers.now) }
{
    let mut text = Vec::from_slice(alloc, b"gen ")?;
    write_count(&mut text, lines as usize, b": ")?;
    write_count(&mut text, lines as usize, b" procedures, ")?;
    write_count(&mut text, verified(answers), b" verified, ")?;
    write_count(&mut text, not_verified(answers), b" not verified, ")?;
    write_count(&mut text, others(answers), b" other\n")?;
    Ok(text)
}
