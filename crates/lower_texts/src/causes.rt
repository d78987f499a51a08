//! Causes of undecided goals, with a place among the bytes of the file.

ghost use Rattle.goal_answers.specs.declared.causes.Cause.TheVariants as causes;
ghost use Rattle.lower_texts.specs.PlacedCauses.{placed};
ghost use Rattle.std.specs.Prelude.{OnOk, length, ◌++◌, ◌<◌, ◌^◌, ◌≡◌, ◌≤◌};
ghost use Rattle.verdict_report.specs.Causes.{cause_text};
ghost use Rattle.verdict_report.specs.Settings.{named_by};

use goal_answers::Cause;
use heyvl_places::{Name, Span};
use std::alloc::AllocError;
use verdict_report::write_cause;

/// Returns the place, which starts at the end of the bytes if it would start beyond.
fn among(bytes: &[u8], span: Span) -> Span
    requires { length bytes.now < 2 ^ 31 }
    ensures within { result.from ≤ length bytes.now }
    ensures value { causes.Nonlinear result ≡ placed (length bytes.now) (causes.Nonlinear span) }
{
    let end = bytes.len() as u32;
    Span {
        from: span.from.min(end),
        to: span.to,
    }
}

/// Appends a cause to the text.
pub(crate) fn write_placed(
    text: &mut Vec<u8>,
    bytes: &[u8],
    names: &[Name],
    own: u32,
    cause: &Cause,
) -> Result<(), AllocError>
    requires { length bytes.now < 2 ^ 31 }
    ensures { OnOk result (text.new.items ≡ text.old.items
        ++ cause_text bytes.now (named_by names.now own) (placed (length bytes.now) cause.now)) }
{
    match cause {
        Cause::Nonlinear(span) => {
            let there = Cause::Nonlinear(among(bytes, *span));
            write_cause(text, bytes, names, own, &there)
        }
        Cause::Depth => write_cause(text, bytes, names, own, cause),
        Cause::Nodes => write_cause(text, bytes, names, own, cause),
        Cause::Cells(_) => write_cause(text, bytes, names, own, cause),
        Cause::Rows(_, _) => write_cause(text, bytes, names, own, cause),
        Cause::Bits => write_cause(text, bytes, names, own, cause),
        Cause::Fraction(_) => write_cause(text, bytes, names, own, cause),
    }
}
