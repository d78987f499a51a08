//! The answers on the procedures by their own goals and kinds.

ghost use Rattle.heyvl_acts.specs.Acts.{procedure_at};
ghost use Rattle.heyvl_acts.specs.PlainActs.{procedures_of};
ghost use Rattle.heyvl_acts.specs.Rules.{MeetsAllRules};
ghost use Rattle.std.specs.Prelude.{IfOk, OnOk, [], length, map, ◌++◌, ◌<◌, ◌≡◌};
ghost use Rattle.verify_core.specs.Outcomes.{all_shown, listed, loop_answer, rank_of, shown, told};
ghost use Rattle.verify_core.specs.internal.Own.{AreOwn, CanAnswer, IsKindVerdict, IsOwnAnswer};
ghost use Rattle.verify_core.specs.internal.Own.{IsOwnVerdict, verdict_for};

use crate::outcomes::{GoalOutcome, Outcome, told};
use crate::procedure_goals::bounds;
use crate::rankings::rankings;
use crate::settled_goals::{Way, settle_all};
use goal_answers::{GoalCert, NamedGoal};
use heyvl_acts::Typed;
use loop_encodings::encodings_are_over_their_variables;
use proc_contracts::{WhyNot, not_program};
use ranking_rule::ranking_goals_say_rankings;
use std::alloc::{AllocError, Global};
use verdict_report::{Answer, LoopAnswer, RankVerdict, Verdict};
use vp_generator::{generated_form_means_acts, prenexed_goals_speak_of_choices};

/// Returns the answers on the procedures. Appends to `certs` the certificates of the goals that are
/// proved by decisions, and to `made` the goals whose state or cause is in an answer.
pub(crate) fn own_answers(
    alloc: Global,
    typed: &Typed,
    way: Way<'_>,
    certs: &mut Vec<GoalCert>,
    made: &mut Vec<NamedGoal>,
) -> Result<Vec<Answer>, AllocError>
    requires rules { MeetsAllRules typed.now }
    requires ready { CanAnswer way (procedures_of typed.now) }
    requires no_certs { certs.old.items ≡ [] }
    requires none_made { made.old.items ≡ [] }
    ensures { IfOk result (λ all.
        AreOwn way.entry (procedures_of typed.now)
        (procedures_of typed.now) all.items certs.new.items made.new.items) }
{
    let mut all = Vec::new(alloc);
    for p in 0..typed.procs.len() {
        let answer = own_answer(alloc, typed, way, p as u32, certs, made)?;
        all.push(answer)?;
    }
    Ok(all)
}

/// Returns the answer on a procedure, and appends to `certs` and `made` as `own_answers` does.
fn own_answer(
    alloc: Global,
    typed: &Typed,
    way: Way<'_>,
    p: u32,
    certs: &mut Vec<GoalCert>,
    made: &mut Vec<NamedGoal>,
) -> Result<Answer, AllocError>
    requires there { p < length typed.now.procs.items }
    requires rules { MeetsAllRules typed.now }
    requires ready { CanAnswer way (procedures_of typed.now) }
    ensures { IfOk result (λ a.
        IsOwnAnswer way.entry (procedures_of typed.now) p a certs.old.items certs.new.items
        made.old.items made.new.items) }
{
    generated_form_means_acts();
    prenexed_goals_speak_of_choices();
    encodings_are_over_their_variables();
    ranking_goals_say_rankings();
    let name = typed.procs[p as usize].name.copy(alloc)?;
    let bound = settle_all(alloc, way, bounds(alloc, typed, p)?, certs)?;
    let verdict = own_verdict(typed, p, bound, made)?;
    let ranked = settle_all(alloc, way, rankings(alloc, typed, p)?, certs)?;
    let loops = loop_answers(alloc, ranked, made)?;
    Ok(Answer {
        name,
        verdict,
        loops,
    })
}

/// Returns the verdict on a procedure by the goals of its bound and its kind. Appends to `made` the
/// goal whose state or cause it reports.
fn own_verdict(
    typed: &Typed,
    p: u32,
    row: Vec<GoalOutcome>,
    made: &mut Vec<NamedGoal>,
) -> Result<Verdict, AllocError>
    requires there { p < length typed.now.procs.items }
    ensures verdict { IfOk result
        (λ v. IsOwnVerdict (procedure_at (procedures_of typed.now) p) row.items v) }
    ensures made { OnOk result
        (made.new.items ≡ made.old.items ++ all_shown (listed (told row.items))) }
{
    let Some(one) = told(row) else {
        return Ok(by_kind(typed, p));
    };
    let goal = one.goal;
    let outcome = one.outcome;
    let id = goal.id;
    show(goal, &outcome, made)?;
    match outcome {
        Outcome::Proved => unreachable!(),
        Outcome::Falsified(point) => Ok(Verdict::NotVerified(id, point)),
        Outcome::Unknown(cause) => Ok(Verdict::Unknown(id, cause)),
        Outcome::Missed(miss) => Ok(Verdict::Unchecked(id, miss)),
    }
}

/// Appends the goal to `made` if an answer reports its state or cause.
fn show(goal: NamedGoal, outcome: &Outcome, made: &mut Vec<NamedGoal>) -> Result<(), AllocError>
    ensures { OnOk result (made.new.items ≡ made.old.items
        ++ shown (record { goal = goal; outcome = outcome.now })) }
{
    match outcome {
        Outcome::Falsified(_) | Outcome::Unknown(_) => made.push(goal)?,
        Outcome::Proved | Outcome::Missed(_) => {}
    }
    Ok(())
}

/// Returns the verdict on a procedure whose goals are proved.
fn by_kind(typed: &Typed, p: u32) -> Verdict
    requires there { p < length typed.now.procs.items }
    ensures { IsKindVerdict (procedure_at (procedures_of typed.now) p) result }
{
    match not_program(typed, p) {
        Some(why) => verdict_for(why),
        None => Verdict::Verified,
    }
}

/// Returns the verdict on a procedure whose goals are proved and that is no program.
fn verdict_for(why: WhyNot) -> Verdict
    ensures { result ≡ verdict_for why }
{
    match why {
        WhyNot::NoBody => Verdict::NoBody,
        WhyNot::NoWlp => Verdict::Valid(WhyNot::NoWlp),
        WhyNot::Quantifier => Verdict::Valid(WhyNot::Quantifier),
        WhyNot::Statement(span) => Verdict::Valid(WhyNot::Statement(span)),
    }
}

/// Returns the answers on the loops whose rankings have the goals of `row`. Appends to `made` the
/// goals whose state or cause they report.
fn loop_answers(
    alloc: Global,
    row: Vec<GoalOutcome>,
    made: &mut Vec<NamedGoal>,
) -> Result<Vec<LoopAnswer>, AllocError>
    ensures loops { IfOk result (λ loops. loops.items ≡ map loop_answer row.items) }
    ensures made { OnOk result (made.new.items ≡ made.old.items ++ all_shown row.items) }
{
    let mut loops = Vec::new(alloc);
    for one in row {
        let goal = one.goal;
        let outcome = one.outcome;
        let number = goal.id.loop_number();
        show(goal, &outcome, made)?;
        loops.push(LoopAnswer {
            number,
            rank: rank_of(outcome),
        })?;
    }
    Ok(loops)
}

/// Returns the verdict on a ranking, by the outcome of its goal.
fn rank_of(outcome: Outcome) -> RankVerdict
    ensures { result ≡ rank_of outcome }
{
    match outcome {
        Outcome::Proved => RankVerdict::Ranked,
        Outcome::Falsified(point) => RankVerdict::NotRanked(point),
        Outcome::Unknown(cause) => RankVerdict::Unknown(cause),
        Outcome::Missed(miss) => RankVerdict::Unchecked(miss),
    }
}
