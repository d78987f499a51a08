//! `gen N`: the summary of the answers on a generated text.

ghost use Rattle.command_words.specs.LineCounts.{is_line_count};
ghost use Rattle.command_rules.specs.Responses.{reply_of};
ghost use Rattle.command_rules.specs.commands.Generate.{GeneratedTextsAreAnswered, IsGenReply};
ghost use Rattle.std.specs.Prelude.{IfOk, true, ◌≡◌};

use command_rules::{Response, answered};
use generated_summary::summarize;
use std::alloc::{AllocError, Global};

/// Returns the reply of `gen` for this number of lines.
pub fn respond(alloc: Global, lines: u32) -> Result<Response, AllocError>
    requires { is_line_count lines ≡ true }
    ensures { IfOk result (λ response. IsGenReply lines (reply_of response)) }
{
    let made = summarize(alloc, lines)?;
    Ok(answered(made.answers, made.text))
}

/// For each number of lines that may be asked for, `gen` answers each procedure and writes the
/// summary, and the status is 0, 1 or 2.
pub fn generated_texts_are_answered()
    ensures { GeneratedTextsAreAnswered }
{}
