//! The text of a report.

ghost use Rattle.heyvl_acts.specs.PlainActs.{procedures_of};
ghost use Rattle.heyvl_acts.specs.Rules.{Each, MeetsAllRules};
ghost use Rattle.std.specs.Prelude.{◌≡◌, ◌++◌, ◌+◌, ◌<◌, ◌^◌, IfOk, OnOk, length};
ghost use Rattle.verdict_report.specs.PlacedAnswers.{CanReport, IsAnswerPlaced, IsLoopPlaced};
ghost use Rattle.verdict_report.specs.Reports.{answer_lines, loop_line, loop_lines, report_text};

use crate::answers::{Answer, LoopAnswer};
use crate::verdicts::{write_rank, write_verdict};
use goal_answers::NamedGoal;
use heyvl_acts::Typed;
use number_texts::write_number;
use std::alloc::{AllocError, Global};

/// Appends the line of a ranking.
fn write_loop(
    alloc: Global,
    text: &mut Vec<u8>,
    bytes: &[u8],
    typed: &Typed,
    made: &[NamedGoal],
    proc: u32,
    one: &LoopAnswer,
) -> Result<(), AllocError>
    requires short { length bytes.now < 2 ^ 31 }
    requires rules { MeetsAllRules typed.now }
    requires there { proc < length typed.now.procs.items }
    requires placed { IsLoopPlaced (length bytes.now) one.now }
    ensures { OnOk result (text.new.items ≡ text.old.items
        ++ loop_line bytes.now (procedures_of typed.now) made.now proc one.now) }
{
    text.extend_from_slice(b"  loop ")?;
    write_number(text, one.number)?;
    text.extend_from_slice(b": ")?;
    write_rank(alloc, text, bytes, typed, made, proc, one)?;
    Ok(text.push(b'\n')?)
}

/// Appends the lines of rankings.
fn write_loops(
    alloc: Global,
    text: &mut Vec<u8>,
    bytes: &[u8],
    typed: &Typed,
    made: &[NamedGoal],
    proc: u32,
    loops: &[LoopAnswer],
) -> Result<(), AllocError>
    requires short { length bytes.now < 2 ^ 31 }
    requires rules { MeetsAllRules typed.now }
    requires there { proc < length typed.now.procs.items }
    requires placed { Each (IsLoopPlaced (length bytes.now)) loops.now }
    ensures { OnOk result (text.new.items ≡ text.old.items
        ++ loop_lines bytes.now (procedures_of typed.now) made.now proc loops.now) }
{
    let mut rest = loops;
    'loops: while let Some((one, more)) = rest.split_first() {
        write_loop(alloc, text, bytes, typed, made, proc, one)?;
        rest = more;
    }
    Ok(())
}

/// Appends the lines of a procedure.
fn write_answer(
    alloc: Global,
    text: &mut Vec<u8>,
    bytes: &[u8],
    typed: &Typed,
    made: &[NamedGoal],
    proc: u32,
    answer: &Answer,
) -> Result<(), AllocError>
    requires short { length bytes.now < 2 ^ 31 }
    requires rules { MeetsAllRules typed.now }
    requires there { proc < length typed.now.procs.items }
    requires placed { IsAnswerPlaced (length bytes.now) (length typed.now.procs.items) answer.now }
    ensures { OnOk result (text.new.items ≡ text.old.items
        ++ answer_lines bytes.now (procedures_of typed.now) made.now proc answer.now) }
{
    text.extend_from_slice(answer.name.as_bytes())?;
    text.extend_from_slice(b": ")?;
    write_verdict(alloc, text, bytes, typed, made, proc, &answer.verdict)?;
    text.push(b'\n')?;
    write_loops(alloc, text, bytes, typed, made, proc, &answer.loops)
}

/// Returns the report with these answers, one for each procedure of the file, in their order.
/// `bytes` is the file's text, and `made` has the goals whose state or cause is in an answer.
pub fn report(
    alloc: Global,
    bytes: &[u8],
    typed: &Typed,
    answers: &[Answer],
    made: &[NamedGoal],
) -> Result<Vec<u8>, AllocError>
    requires { CanReport bytes.now typed.now answers.now }
    ensures { IfOk result (λ text. text.items
        ≡ report_text bytes.now (procedures_of typed.now) answers.now made.now) }
{
    let mut text = Vec::new(alloc);
    let mut number: u32 = 0;
    let mut rest = answers;
    'answers: while let Some((answer, more)) = rest.split_first() {
        write_answer(alloc, &mut text, bytes, typed, made, number, answer)?;
        number += 1;
        rest = more;
    }
    write_number(&mut text, answers.len())?;
    text.extend_from_slice(b" procedures\n")?;
    Ok(text)
}
