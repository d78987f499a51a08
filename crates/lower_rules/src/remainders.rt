//! Lower bounds with a remainder.

ghost use Rattle.heylo_formula.specs.PlainTrees.{form_of};
ghost use Rattle.heyvl_acts.specs.Acts.{procedure_at};
ghost use Rattle.heyvl_acts.specs.FormSizes.{FormsWithin};
ghost use Rattle.heyvl_acts.specs.PlainActs.{acts_of, procedures_of};
ghost use Rattle.heyvl_acts.specs.Program.{IsProgram};
ghost use Rattle.heyvl_acts.specs.Rules.{Each, MeetsAllRules};
ghost use Rattle.lower_rules.specs.RemainderAnswers.{HasBoundedTurns, HasSmallBound, IsPromised};
ghost use Rattle.lower_rules.specs.RemainderAnswers.{IsRemainderAnswer};
ghost use Rattle.verdict_report.specs.VerdictsOn.{IsVerdictOn, IsVerdictOnLoop};
ghost use Rattle.lower_goals.specs.LentRemainderPairs.{IsPairAs};
ghost use Rattle.lower_rules.specs.internal.StartDecisions.{IsStarted, answer_by};
ghost use Rattle.std.specs.Prelude.{IfOk, List, length, ℕ, ◌<◌, ◌^◌, ◌≡◌, true};
ghost use Rattle.verdict_report.specs.declared.answers.Answer.{Answer as plain_answer};
ghost use Rattle.verdict_report.specs.declared.answers.RankVerdict.TheVariants.{Ranked};
ghost use Rattle.verdict_report.specs.declared.answers.Verdict.TheVariants.{Verified};

use crate::decisions::decided;
use crate::verdicts::{is_ranked, is_verified};
use goal_answers::Decision;
use heyvl_acts::Typed;
use heyvl_num::Frac;
use lower_goals::Remainder;
use lower_goals::remainder_goals::made_of;
use lower_goals::remainder_pairs::{RankedParts, pair_of};
use std::alloc::{AllocError, Global};
use verdict_report::Answer;
use vp_generator::{generated_form_means_acts, prenexed_goals_speak_of_choices};

/// Decides whether the procedures `p` and `q` give a lower bound with a remainder. `answers` are
/// the answers on the file. Of these, the verdicts `Verified` of a program `p` with `@wlp` and
/// `Ranked` of its loops have to be true. Returns
///
/// - `Shape` if they are no remainder pair;
/// - else `NotVerified` if `p` is not verified;
/// - else `NotRanked` if the loop of `p` is not ranked;
/// - otherwise the decision of the goal that the pre of `q`, over the inputs of `p`, is at least
///   the pre-expectation of the ranking over the acts before the loop, taken upward.
pub fn remainder(
    alloc: Global,
    typed: &Typed,
    answers: &[Answer],
    p: u32,
    q: u32,
) -> Result<Remainder, AllocError>
    requires first { p < length typed.now.procs.items }
    requires second { q < length typed.now.procs.items }
    requires rules { MeetsAllRules typed.now }
    requires small { Each (FormsWithin (2 ^ 27)) (procedures_of typed.now) }
    requires each { length answers.now ≡ length typed.now.procs.items }
    requires verified { IsVerdictOn answers.now p Verified
        → (procedure_at (procedures_of typed.now) p).weak ≡ true
        → IsProgram (procedure_at (procedures_of typed.now) p)
        → HasSmallBound (procedures_of typed.now) p }
    requires ranked { (n : ℕ) → IsVerdictOnLoop answers.now p n Ranked
        → HasBoundedTurns (procedures_of typed.now) p n }
    ensures answer { IfOk result
        (λ answer. IsRemainderAnswer (procedures_of typed.now) answers.now p q answer) }
    ensures bound { IfOk result (λ answer. IsPromised (procedures_of typed.now) p q answer) }
{
    match pair_of(typed, p, q) {
        Some(parts) => of_pair(alloc, typed, answers, p, q, &parts),
        None => Ok(Remainder::Shape),
    }
}

/// Returns the answer on a remainder pair.
fn of_pair<'a>(
    alloc: Global,
    typed: &Typed,
    answers: &[Answer],
    p: u32,
    q: u32,
    parts: &RankedParts<'a>,
) -> Result<Remainder, AllocError>
    requires first { p < length typed.now.procs.items }
    requires second { q < length typed.now.procs.items }
    requires rules { MeetsAllRules typed.now }
    requires small { Each (FormsWithin (2 ^ 27)) (procedures_of typed.now) }
    requires each { length answers.now ≡ length typed.now.procs.items }
    requires pair { IsPairAs (procedure_at (procedures_of typed.now) p)
        (procedure_at (procedures_of typed.now) q) parts.now }
    requires verified { IsVerdictOn answers.now p Verified
        → (procedure_at (procedures_of typed.now) p).weak ≡ true
        → IsProgram (procedure_at (procedures_of typed.now) p)
        → HasSmallBound (procedures_of typed.now) p }
    requires ranked { (n : ℕ) → IsVerdictOnLoop answers.now p n Ranked
        → HasBoundedTurns (procedures_of typed.now) p n }
    ensures answer { IfOk result
        (λ answer. IsRemainderAnswer (procedures_of typed.now) answers.now p q answer) }
    ensures bound { IfOk result (λ answer. IsPromised (procedures_of typed.now) p q answer) }
{
    if !is_verified(answers, p) {
        return Ok(Remainder::NotVerified);
    }
    if !is_ranked(answers, p, parts.number) {
        return Ok(Remainder::NotRanked);
    }
    of_ranked(alloc, typed, p, q, parts)
}

/// Returns the answer on a remainder pair whose first procedure is verified and whose loop is
/// ranked.
fn of_ranked<'a>(
    alloc: Global,
    typed: &Typed,
    p: u32,
    q: u32,
    parts: &RankedParts<'a>,
) -> Result<Remainder, AllocError>
    requires first { p < length typed.now.procs.items }
    requires second { q < length typed.now.procs.items }
    requires rules { MeetsAllRules typed.now }
    requires small { Each (FormsWithin (2 ^ 27)) (procedures_of typed.now) }
    requires pair { IsPairAs (procedure_at (procedures_of typed.now) p)
        (procedure_at (procedures_of typed.now) q) parts.now }
    requires verified { HasSmallBound (procedures_of typed.now) p }
    requires ranked { HasBoundedTurns (procedures_of typed.now) p parts.now.number }
    ensures answer { (answers : List plain_answer) → IsVerdictOn answers p Verified
        → IsVerdictOnLoop answers p parts.now.number Ranked
        → IfOk result (λ answer. IsRemainderAnswer (procedures_of typed.now) answers p q answer) }
    ensures bound { IfOk result (λ answer. IsPromised (procedures_of typed.now) p q answer) }
{
    let decision = started(alloc, typed, p, q, parts)?;
    Ok(answer_by(parts.step, decision))
}

/// Returns the decision of a remainder pair's goal.
fn started<'a>(
    alloc: Global,
    typed: &Typed,
    p: u32,
    q: u32,
    parts: &RankedParts<'a>,
) -> Result<Decision, AllocError>
    requires first { p < length typed.now.procs.items }
    requires second { q < length typed.now.procs.items }
    requires rules { MeetsAllRules typed.now }
    requires small { Each (FormsWithin (2 ^ 27)) (procedures_of typed.now) }
    requires pair { IsPairAs (procedure_at (procedures_of typed.now) p)
        (procedure_at (procedures_of typed.now) q) parts.now }
    ensures { IfOk result (λ d.
        IsStarted (procedure_at (procedures_of typed.now) p)
        (procedure_at (procedures_of typed.now) q) (acts_of parts.now.front.now)
        (parts.now.step, form_of parts.now.ranking.now) d) }
{
    generated_form_means_acts();
    prenexed_goals_speak_of_choices();
    let made = made_of(alloc, typed, p, q, parts)?;
    decided(alloc, &made)
}

/// Returns the answer for a decision of the goal.
fn answer_by(step: Frac, decision: Decision) -> Remainder
    ensures { result ≡ answer_by step decision }
{
    match decision {
        Decision::Proved(_) => Remainder::Holds(step),
        Decision::Falsified(state) => Remainder::Fails(state),
        Decision::Unknown(cause) => Remainder::Unknown(cause),
    }
}
