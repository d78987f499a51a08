//! The answers on a generated text.

ghost use Rattle.generated_files.specs.Texts.{generated_text};
ghost use Rattle.command_rules.specs.Reports.{IsSummary};
ghost use Rattle.spelled_files.specs.Sources.{IsTypedSource};
ghost use Rattle.heyvl_syntax.specs.SourceFaults.{procedure_limit};
ghost use Rattle.std.specs.Prelude.{IfOk, ◌≡◌, ◌≤◌};

use crate::summaries::summary;
use generated_files::{generated_text, generated_texts_are_faultless, generated_texts_are_short};
use heyvl_acts::Typed;
use heyvl_files::{SourceStop, spelling_is_unique, typed_source};
use heyvl_syntax::sources_have_no_fault;
use std::alloc::{AllocError, Global};
use verdict_report::Answer;
use verify_core::verify;

/// The answers on a generated text, one for each of its procedures, and the text of their summary.
#[derive(Drop)]
pub struct Summary {
    pub answers: Vec<Answer>,
    pub text: Vec<u8>,
}

/// Returns the typed tree of the generated text of `lines` lines, which has no error.
fn typed_text(alloc: Global, lines: u32, text: &[u8]) -> Result<Typed, AllocError>
    requires within { lines ≤ procedure_limit }
    requires made { text.now ≡ generated_text lines }
    ensures { IfOk result (λ typed. IsTypedSource text.now typed) }
{
    generated_texts_are_faultless();
    generated_texts_are_short();
    sources_have_no_fault();
    spelling_is_unique();
    match typed_source(alloc, text) {
        Ok(typed) => Ok(typed),
        Err(SourceStop::Fault(_, _)) => unreachable!(),
        Err(SourceStop::Memory(error)) => Err(error),
    }
}

/// Returns the answers on the generated text of `lines` lines, at most 1,024, and their summary.
pub fn summarize(alloc: Global, lines: u32) -> Result<Summary, AllocError>
    requires { lines ≤ procedure_limit }
    ensures { IfOk result (λ made. IsSummary lines made.answers.items made.text.items) }
{
    generated_texts_are_faultless();
    spelling_is_unique();
    let bytes = generated_text(alloc, lines)?;
    let typed = typed_text(alloc, lines, &bytes)?;
    let whole = verify(alloc, &typed)?;
    let text = summary(alloc, lines, &whole.answers)?;
    Ok(Summary {
        answers: whole.answers,
        text,
    })
}
