//! The reader of scripts.

ghost use Rattle.run_script.specs.Lines.{said as said_of, text_lines, without_last_feed};
ghost use Rattle.run_script.specs.PlainScripts.{known_in, script_of};
ghost use Rattle.run_script.specs.Scripts.{AreLinesOf, IsFirstFault, Script as Scripted, Spells};
ghost use Rattle.run_script.specs.Stops.{IsFaultOrMemory, IsMemory, IsScriptStop};
ghost use Rattle.run_script.specs.internal.ReadLines.{IsStopOf, begun, bytes_of};
ghost use Rattle.std.specs.Prelude.{IfErr, IfOk, MatchResult, length, option_map, ◌+◌, ◌<◌, ◌^◌};
ghost use Rattle.std.specs.Prelude.{◌≡◌, ◌≤◌, ℕ};

use crate::lines::{Line, parts, said};
use crate::scripts::Script;
use crate::stops::ScriptStop;
use heyvl_acts::VarInfo;
use std::alloc::{AllocError, Global};

/// Returns the text without the line feed at its end, if there is one.
fn without_last_feed(bytes: &[u8]) -> &[u8]
    ensures value { result.now ≡ without_last_feed bytes.now }
    ensures shorter { length result.now ≤ length bytes.now }
{
    match bytes.split_last() {
        Some((last, front)) => { if *last == b'\n' { front } else { bytes } }
        None => bytes,
    }
}

/// Returns the lines of a script.
fn lines(alloc: Global, bytes: &[u8]) -> Result<Vec<&[u8]>, AllocError>
    ensures value { IfOk result (λ lines. bytes_of lines.items ≡ text_lines bytes.now) }
    ensures some { IfOk result (λ lines. 0 < length lines.items) }
    ensures few { IfOk result (λ lines. length lines.items ≤ length bytes.now + 1) }
{
    parts(alloc, without_last_feed(bytes), b'\n')
}

/// Returns the script that starts with this line, if it is `steps N`.
fn first_line(alloc: Global, line: &[u8]) -> Result<Option<Script>, AllocError>
    ensures { IfOk result (λ script. option_map script_of script ≡ begun (said_of line.now)) }
{
    match said(alloc, line) {
        Ok(Some(Line::Steps(steps))) => Ok(Some(Script::new(alloc, steps))),
        Ok(_) => Ok(None),
        Err(error) => Err(error),
    }
}

/// Returns the script with these lines, or the first invalid line.
fn script_of_lines(
    alloc: Global,
    known: Option<&[VarInfo]>,
    lines: &[&[u8]],
) -> Result<Script, ScriptStop>
    requires some { 0 < length lines.now }
    requires few { length lines.now ≤ 2 ^ 31 }
    ensures found { IfOk result
        (λ script. AreLinesOf (known_in known.entry) (script_of script) (bytes_of lines.now)) }
    ensures fault { IfErr result
        (λ stop. IsStopOf (known_in known.entry) (bytes_of lines.now) stop) }
{
    let Some(mut script) = first_line(alloc, lines[0])? else {
        return Err(ScriptStop::Fault(1));
    };
    let mut number = 2;
    for line in &lines[1..] {
        if !script.read(alloc, known, line)? {
            return Err(ScriptStop::Fault(number));
        }
        number += 1;
    }
    Ok(script)
}

/// Returns the script that `bytes` spell. `known` has the variables that may be set, the inputs and
/// outputs of the procedure to run; it is `None` if there is no such procedure.
///
/// # Errors
///
/// - `Fault`: no script has this text. The number is that of the first invalid line.
/// - `Memory`: memory ran out.
pub fn read_script(
    alloc: Global,
    known: Option<&[VarInfo]>,
    bytes: &[u8],
) -> Result<Script, ScriptStop>
    requires { length bytes.now < 2 ^ 31 }
    ensures found { IfOk result
        (λ script. Spells (known_in known.entry) (script_of script) bytes.now) }
    ensures fault { IfErr result (λ stop. IsScriptStop (known_in known.entry) bytes.now stop) }
    ensures only { (s : Scripted) → Spells (known_in known.entry) s bytes.now
        → MatchResult result (λ script. script_of script ≡ s) (λ stop. IsMemory stop) }
    ensures only_fault { (line : ℕ) → IsFirstFault (known_in known.entry) bytes.now line
        → MatchResult result (λ _. ⊥) (λ stop. IsFaultOrMemory line stop) }
{
    let lines = lines(alloc, bytes)?;
    script_of_lines(alloc, known, &lines)
}
