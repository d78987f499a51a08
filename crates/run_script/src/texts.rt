//! The texts of the results of a run under a script.

ghost use Rattle.heyvl_num.specs.ExtendedNumbers.{value_of};
ghost use Rattle.run_script.specs.Texts.{script_fault_text, stop_text, sum_text, sums_text};
ghost use Rattle.run_script.specs.Texts.{turns_text, violation_text, within_text};
ghost use Rattle.run_unroller.specs.Unrolling.{totals_of};
ghost use Rattle.std.specs.Prelude.{IfOk, OnOk, codes, decimal, ◌++◌, ◌≡◌};
ghost use Rattle.number_texts.specs.ValueTexts.{fraction_text};

use heyvl_num::{Ext, Frac};
use number_texts::{write_fraction, write_number};
use run_unroller::Sums;
use std::alloc::{AllocError, Global};

fn write_sum(text: &mut Vec<u8>, sum: Ext) -> Result<(), AllocError>
    ensures { OnOk result (text.new.items ≡ text.old.items ++ sum_text (value_of sum)) }
{
    match sum {
        Ext::Fin(fraction) => write_fraction(text, fraction),
        Ext::Inf => Ok(text.extend_from_slice(b"infinity")?),
    }
}

fn write_loop(text: &mut Vec<u8>, number: u64, turns: Frac) -> Result<(), AllocError>
    ensures { OnOk result (text.new.items ≡ text.old.items
        ++ (codes "loop " ++ decimal number ++ codes " turns " ++ fraction_text turns
        ++ codes "\n")) }
{
    text.extend_from_slice(b"loop ")?;
    write_number(text, number)?;
    text.extend_from_slice(b" turns ")?;
    write_fraction(text, turns)?;
    Ok(text.extend_from_slice(b"\n")?)
}

fn write_turns(text: &mut Vec<u8>, turns: &[Frac]) -> Result<(), AllocError>
    ensures { OnOk result (text.new.items ≡ text.old.items ++ turns_text 1 turns.now) }
{
    let mut number = 1u64;
    for expected in turns {
        write_loop(text, number, *expected)?;
        number += 1;
    }
    Ok(())
}

/// Returns the sums of a run, a line for each: the expected post, the expected reward, the mass not
/// yet terminated (`running`), and the expected iterations of each loop (`turns`).
pub fn sums_text(alloc: Global, sums: &Sums) -> Result<Vec<u8>, AllocError>
    ensures { IfOk result (λ text. text.items ≡ sums_text (totals_of sums.now)) }
{
    let mut text = Vec::new(alloc);
    text.extend_from_slice(b"post ")?;
    write_sum(&mut text, sums.post)?;
    text.extend_from_slice(b"\nreward ")?;
    write_sum(&mut text, sums.reward)?;
    text.extend_from_slice(b"\nrunning ")?;
    write_fraction(&mut text, sums.running)?;
    text.extend_from_slice(b"\n")?;
    write_turns(&mut text, &sums.turns)?;
    Ok(text)
}

/// Returns the line on an invalid script, whose first invalid line is `line`.
pub fn script_fault_text(alloc: Global, line: u32) -> Result<Vec<u8>, AllocError>
    ensures { IfOk result (λ text. text.items ≡ script_fault_text line) }
{
    let mut text = Vec::new(alloc);
    text.extend_from_slice(b"script line ")?;
    write_number(&mut text, line)?;
    text.extend_from_slice(b": fault\n")?;
    Ok(text)
}

/// Returns the line on a run that was stopped at this step. The cause is `runs`, `values` or
/// `bits`.
pub fn stop_text(alloc: Global, cause: &'static [u8], step: u32) -> Result<Vec<u8>, AllocError>
    ensures { IfOk result (λ text. text.items ≡ stop_text cause.now step) }
{
    let mut text = Vec::new(alloc);
    text.extend_from_slice(b"run stopped at step ")?;
    write_number(&mut text, step)?;
    text.extend_from_slice(b": ")?;
    text.extend_from_slice(cause)?;
    text.extend_from_slice(b"\n")?;
    Ok(text)
}

/// Returns the line on a procedure whose runs of `step` steps exceed its pre.
pub fn violation_text(
    alloc: Global,
    name: &[u8],
    step: u32,
    sum: Ext,
    pre: Ext,
) -> Result<Vec<u8>, AllocError>
    ensures { IfOk result (λ text. text.items
        ≡ violation_text name.now step (value_of sum) (value_of pre)) }
{
    let mut text = Vec::new(alloc);
    text.extend_from_slice(name)?;
    text.extend_from_slice(b": violated at step ")?;
    write_number(&mut text, step)?;
    text.extend_from_slice(b": ")?;
    write_sum(&mut text, sum)?;
    text.extend_from_slice(b" above ")?;
    write_sum(&mut text, pre)?;
    text.extend_from_slice(b"\n")?;
    Ok(text)
}

/// Returns the line on a procedure whose runs do not exceed its pre within `steps` steps.
pub fn within_text(
    alloc: Global,
    name: &[u8],
    pre: Ext,
    steps: u32,
    sum: Ext,
) -> Result<Vec<u8>, AllocError>
    ensures { IfOk result (λ text. text.items
        ≡ within_text name.now (value_of pre) steps (value_of sum)) }
{
    let mut text = Vec::new(alloc);
    text.extend_from_slice(name)?;
    text.extend_from_slice(b": within ")?;
    write_sum(&mut text, pre)?;
    text.extend_from_slice(b" at step ")?;
    write_number(&mut text, steps)?;
    text.extend_from_slice(b": ")?;
    write_sum(&mut text, sum)?;
    text.extend_from_slice(b"\n")?;
    Ok(text)
}
