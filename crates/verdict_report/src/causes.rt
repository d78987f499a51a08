//! Causes in a report.

ghost use Rattle.std.specs.Prelude.{◌≡◌, ◌++◌, ◌<◌, ◌^◌, OnOk, length};
ghost use Rattle.verdict_report.specs.Causes.{broken_text, cause_text, earlier_text, interval_text};
ghost use Rattle.verdict_report.specs.Causes.{step_text};
ghost use Rattle.verdict_report.specs.PlacedAnswers.{IsCausePlaced};
ghost use Rattle.verdict_report.specs.Settings.{named_by};

use crate::settings::{write_settings, write_variable};
use goal_answers::{Broken, Cause};
use heylo_formula::Val;
use heyvl_places::Name;
use number_texts::{write_fraction, write_number, write_place};
use std::alloc::AllocError;

/// Appends an interval.
fn write_interval(text: &mut Vec<u8>, broken: &Broken) -> Result<(), AllocError>
    ensures { OnOk result (text.new.items ≡ text.old.items
        ++ interval_text broken.now.low_in broken.now.low broken.now.high broken.now.high_in) }
{
    text.push(if broken.low_in { b'[' } else { b'(' })?;
    write_fraction(text, broken.low)?;
    text.extend_from_slice(b", ")?;
    write_fraction(text, broken.high)?;
    Ok(text.push(if broken.high_in { b']' } else { b')' })?)
}

/// Appends the values that were chosen before, if there are any.
fn write_earlier(
    text: &mut Vec<u8>,
    names: &[Name],
    own: u32,
    earlier: &[(u32, Val)],
) -> Result<(), AllocError>
    ensures { OnOk result (text.new.items ≡ text.old.items
        ++ earlier_text (named_by names.now own) earlier.now) }
{
    if earlier.is_empty() {
        Ok(())
    } else {
        text.extend_from_slice(b" where ")?;
        write_settings(text, names, own, earlier)
    }
}

/// Appends the variable that has no integer in its interval, with this interval.
fn write_broken(
    text: &mut Vec<u8>,
    names: &[Name],
    own: u32,
    broken: &Broken,
) -> Result<(), AllocError>
    ensures { OnOk result (text.new.items ≡ text.old.items
        ++ broken_text (named_by names.now own) broken.now) }
{
    text.extend_from_slice(b"fraction ")?;
    write_variable(text, names, own, broken.var as usize)?;
    text.extend_from_slice(b" in ")?;
    write_interval(text, broken)?;
    write_earlier(text, names, own, &broken.earlier)
}

/// Appends the step at which there were more rows than the limit allows.
fn write_step(text: &mut Vec<u8>, step: u32) -> Result<(), AllocError>
    ensures { OnOk result (text.new.items ≡ text.old.items ++ step_text step) }
{
    text.extend_from_slice(b"rows at step ")?;
    write_number(text, step)?;
    Ok(())
}

/// Appends the cause for which a goal of a file with these bytes is not decided: a limit that is
/// exceeded, the place of a product of two variables, or the variable that has no integer in its
/// interval. `names` has the names of the goal's variables, by number; variables from `own` on were
/// binders.
pub fn write_cause(
    text: &mut Vec<u8>,
    bytes: &[u8],
    names: &[Name],
    own: u32,
    cause: &Cause,
) -> Result<(), AllocError>
    requires placed { IsCausePlaced (length bytes.now) cause.now }
    requires short { length bytes.now < 2 ^ 31 }
    ensures { OnOk result (text.new.items ≡ text.old.items
        ++ cause_text bytes.now (named_by names.now own) cause.now) }
{
    match cause {
        Cause::Depth => Ok(text.extend_from_slice(b"depth")?),
        Cause::Nodes => Ok(text.extend_from_slice(b"nodes")?),
        Cause::Nonlinear(span) => {
            text.extend_from_slice(b"nonlinear at ")?;
            write_place(text, bytes, span.from)
        }
        Cause::Cells(_) => Ok(text.extend_from_slice(b"cells")?),
        Cause::Rows(step, _) => write_step(text, *step),
        Cause::Bits => Ok(text.extend_from_slice(b"bits")?),
        Cause::Fraction(broken) => write_broken(text, names, own, broken),
    }
}
