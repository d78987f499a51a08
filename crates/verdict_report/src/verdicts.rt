//! Verdicts in a report.

ghost use Rattle.heyvl_acts.specs.Acts.{procedure_at};
ghost use Rattle.heyvl_acts.specs.PlainActs.{procedures_of};
ghost use Rattle.heyvl_acts.specs.Rules.{MeetsAllRules};
ghost use Rattle.std.specs.Prelude.{◌≡◌, ◌++◌, ◌<◌, ◌^◌, OnOk, length};
ghost use Rattle.verdict_report.specs.PlacedAnswers.{IsRankPlaced, IsReasonPlaced, IsVerdictPlaced};
ghost use Rattle.verdict_report.specs.Verdicts.{about_text, condition_text, goal_text};
ghost use Rattle.verdict_report.specs.Verdicts.{invariant_text, miss_text, node_text, rank_text};
ghost use Rattle.verdict_report.specs.Verdicts.{reason_text, state_of_goal, verdict_text, way_text};

use crate::answers::{LoopAnswer, RankVerdict, Verdict};
use crate::causes::write_cause;
use crate::goal_names::names_of;
use crate::loops::always_shown;
use crate::states::write_state;
use goal_answers::{Miss, NamedGoal};
use heylo_formula::{GoalId, Val};
use heyvl_acts::Typed;
use number_texts::{write_number, write_place};
use proc_contracts::WhyNot;
use std::alloc::{AllocError, Global};

/// Appends the name of the goal of a loop's invariant.
fn write_invariant(text: &mut Vec<u8>, number: u32) -> Result<(), AllocError>
    ensures { OnOk result (text.new.items ≡ text.old.items ++ invariant_text number) }
{
    text.extend_from_slice(b"invariant of loop ")?;
    write_number(text, number)?;
    Ok(text.extend_from_slice(b" at most 1")?)
}

/// Appends the name of a goal.
fn write_goal(text: &mut Vec<u8>, id: GoalId) -> Result<(), AllocError>
    ensures { OnOk result (text.new.items ≡ text.old.items ++ goal_text id) }
{
    match id {
        GoalId::Main => Ok(text.extend_from_slice(b"bound")?),
        GoalId::Pre => Ok(text.extend_from_slice(b"pre at most 1")?),
        GoalId::Post => Ok(text.extend_from_slice(b"post at most 1")?),
        GoalId::Invariant(number) => write_invariant(text, number),
        GoalId::Ranking(number) => {
            text.extend_from_slice(b"ranking of loop ")?;
            write_number(text, number)
        }
    }
}

/// Appends the reason why a procedure is no program.
fn write_reason(text: &mut Vec<u8>, bytes: &[u8], reason: &WhyNot) -> Result<(), AllocError>
    requires placed { IsReasonPlaced (length bytes.now) reason.now }
    requires short { length bytes.now < 2 ^ 31 }
    ensures { OnOk result (text.new.items ≡ text.old.items ++ reason_text bytes.now reason.now) }
{
    match reason {
        WhyNot::NoBody => Ok(text.extend_from_slice(b"no body")?),
        WhyNot::NoWlp => Ok(text.extend_from_slice(b"no @wlp")?),
        WhyNot::Quantifier => Ok(text.extend_from_slice(b"quantifier in post")?),
        WhyNot::Statement(span) => {
            write_place(text, bytes, span.from)?;
            Ok(text.extend_from_slice(b" is no program statement")?)
        }
    }
}

/// Appends the path to a node.
fn write_way(text: &mut Vec<u8>, way: &[bool]) -> Result<(), AllocError>
    ensures { OnOk result (text.new.items ≡ text.old.items ++ way_text way.now) }
{
    let mut rest = way;
    'way: while let Some((holds, more)) = rest.split_first() {
        text.push(if *holds { b'h' } else { b'd' })?;
        rest = more;
    }
    Ok(())
}

/// Appends the name of a node of a certificate's tree.
fn write_node(text: &mut Vec<u8>, way: &[bool]) -> Result<(), AllocError>
    ensures { OnOk result (text.new.items ≡ text.old.items ++ node_text way.now) }
{
    if way.is_empty() {
        Ok(text.extend_from_slice(b"root")?)
    } else {
        write_way(text, way)
    }
}

/// Appends the reason why the certificates do not prove a goal.
fn write_miss(text: &mut Vec<u8>, miss: &Miss) -> Result<(), AllocError>
    ensures { OnOk result (text.new.items ≡ text.old.items ++ miss_text miss.now) }
{
    match miss {
        Miss::Absent => Ok(text.extend_from_slice(b"no certificate")?),
        Miss::Place(way) => {
            text.extend_from_slice(b"at ")?;
            write_node(text, way)
        }
    }
}

/// Appends a verdict and the name of its goal.
fn write_about(text: &mut Vec<u8>, head: &[u8], id: GoalId) -> Result<(), AllocError>
    ensures { OnOk result (text.new.items ≡ text.old.items ++ about_text head.now id) }
{
    text.extend_from_slice(head)?;
    text.extend_from_slice(b" (")?;
    write_goal(text, id)?;
    Ok(text.extend_from_slice(b"): ")?)
}

/// Appends the state of a goal of the procedure with the number `proc`.
fn write_state_of(
    alloc: Global,
    text: &mut Vec<u8>,
    typed: &Typed,
    made: &[NamedGoal],
    proc: u32,
    id: GoalId,
    state: &[Val],
) -> Result<(), AllocError>
    requires rules { MeetsAllRules typed.now }
    requires there { proc < length typed.now.procs.items }
    ensures { OnOk result (text.new.items ≡ text.old.items
        ++ state_of_goal (procedures_of typed.now) made.now proc id state.now) }
{
    let shown = always_shown(alloc, &typed.procs[proc as usize], id)?;
    let (names, own) = names_of(made, proc, id);
    write_state(alloc, text, names, own, &shown, state)
}

/// Appends that the bound is conditional on the procedure `other`.
fn write_condition(text: &mut Vec<u8>, typed: &Typed, other: u32) -> Result<(), AllocError>
    requires { other < length typed.now.procs.items }
    ensures { OnOk result (text.new.items ≡ text.old.items
        ++ condition_text (procedure_at (procedures_of typed.now) other)) }
{
    text.extend_from_slice(b"conditional on ")?;
    Ok(text.extend_from_slice(typed.procs[other as usize].name.as_bytes())?)
}

/// Appends the verdict on the bound of the procedure with the number `proc`.
pub(crate) fn write_verdict(
    alloc: Global,
    text: &mut Vec<u8>,
    bytes: &[u8],
    typed: &Typed,
    made: &[NamedGoal],
    proc: u32,
    verdict: &Verdict,
) -> Result<(), AllocError>
    requires short { length bytes.now < 2 ^ 31 }
    requires rules { MeetsAllRules typed.now }
    requires there { proc < length typed.now.procs.items }
    requires placed { IsVerdictPlaced (length bytes.now)
        (length typed.now.procs.items) verdict.now }
    ensures { OnOk result (text.new.items ≡ text.old.items
        ++ verdict_text bytes.now (procedures_of typed.now) made.now proc verdict.now) }
{
    match verdict {
        Verdict::Verified => Ok(text.extend_from_slice(b"verified")?),
        Verdict::Valid(reason) => {
            text.extend_from_slice(b"valid (")?;
            write_reason(text, bytes, reason)?;
            Ok(text.push(b')')?)
        }
        Verdict::Conditional(other) => write_condition(text, typed, *other),
        Verdict::NotVerified(id, state) => {
            write_about(text, b"not verified", *id)?;
            write_state_of(alloc, text, typed, made, proc, *id, state)
        }
        Verdict::Unknown(id, cause) => {
            write_about(text, b"unknown", *id)?;
            let (names, own) = names_of(made, proc, *id);
            write_cause(text, bytes, names, own, cause)
        }
        Verdict::NoBody => Ok(text.extend_from_slice(b"no body")?),
        Verdict::Unchecked(id, miss) => {
            write_about(text, b"not checked", *id)?;
            write_miss(text, miss)
        }
    }
}

/// Appends the verdict on the ranking of this loop of the procedure with the number `proc`.
pub(crate) fn write_rank(
    alloc: Global,
    text: &mut Vec<u8>,
    bytes: &[u8],
    typed: &Typed,
    made: &[NamedGoal],
    proc: u32,
    one: &LoopAnswer,
) -> Result<(), AllocError>
    requires short { length bytes.now < 2 ^ 31 }
    requires rules { MeetsAllRules typed.now }
    requires there { proc < length typed.now.procs.items }
    requires placed { IsRankPlaced (length bytes.now) one.now.rank }
    ensures { OnOk result (text.new.items ≡ text.old.items
        ++ rank_text bytes.now (procedures_of typed.now) made.now proc one.now.number
        one.now.rank) }
{
    let id = GoalId::Ranking(one.number);
    match &one.rank {
        RankVerdict::Ranked => Ok(text.extend_from_slice(b"ranked")?),
        RankVerdict::NotRanked(state) => {
            text.extend_from_slice(b"not ranked: ")?;
            write_state_of(alloc, text, typed, made, proc, id, state)
        }
        RankVerdict::Unknown(cause) => {
            text.extend_from_slice(b"unknown: ")?;
            let (names, own) = names_of(made, proc, id);
            write_cause(text, bytes, names, own, cause)
        }
        RankVerdict::Unchecked(miss) => {
            text.extend_from_slice(b"not checked: ")?;
            write_miss(text, miss)
        }
    }
}
