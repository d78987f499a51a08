//! The answers on procedures, from the answers by their own goals and kinds and from the procedures
//! that they reach.

ghost use Rattle.heyvl_acts.specs.Acts.{procedure_at};
ghost use Rattle.heyvl_acts.specs.PlainActs.{procedures_of};
ghost use Rattle.heyvl_acts.specs.Rules.{MeetsAllRules};
ghost use Rattle.std.specs.List.{All};
ghost use Rattle.std.specs.Prelude.{IfOk, List, length, map, ◌<◌, ◌≡◌};
ghost use Rattle.verify_core.specs.NumberedLists.{row_at};
ghost use Rattle.verify_core.specs.Verdicts.{AreAnswers, IsAnswer, IsClosed, IsVerdict};
ghost use Rattle.verify_core.specs.declared.outcomes.GoalOutcome.{GoalOutcome};
ghost use Rattle.verify_core.specs.internal.Marks.{AreMarks, first_marked, is_unverified};
ghost use Rattle.verify_core.specs.internal.Marks.{is_verified};
ghost use Rattle.verify_core.specs.internal.Own.{EachNumbered, IsOwnBy, IsOwnVerdict};

use heyvl_acts::Typed;
use proc_contracts::reach;
use std::alloc::{AllocError, Global};
use verdict_report::{Answer, Verdict};

/// Returns the answers of `own`, but `Conditional` for a procedure that is verified in `own` and
/// reaches one that is not.
pub(crate) fn answers(
    alloc: Global,
    typed: &Typed,
    own: Vec<Answer>,
) -> Result<Vec<Answer>, AllocError>
    requires rules { MeetsAllRules typed.now }
    requires each { length own.items ≡ length typed.now.procs.items }
    ensures { (table ranks : List (List GoalOutcome))
        → EachNumbered (IsOwnBy (procedures_of typed.now) table ranks) 0 own.items
        → IfOk result
        (λ all. AreAnswers (procedures_of typed.now) table ranks 0
        (procedures_of typed.now) all.items) }
{
    let marks = marks(alloc, &own)?;
    let mut all = Vec::new(alloc);
    let mut p: u32 = 0;
    for one in own {
        all.push(answer(alloc, typed, p, one, &marks)?)?;
        p += 1;
    }
    Ok(all)
}

/// Returns for each procedure whether it is not verified in `own`.
fn marks(alloc: Global, own: &[Answer]) -> Result<Vec<bool>, AllocError>
    ensures { IfOk result (λ marks. marks.items ≡ map is_unverified own.now) }
{
    let mut marks = Vec::new(alloc);
    for one in own {
        marks.push(!is_verified(&one.verdict))?;
    }
    Ok(marks)
}

fn is_verified(verdict: &Verdict) -> bool
    ensures { result ≡ is_verified verdict.now }
{
    match verdict {
        Verdict::Verified => true,
        _ => false,
    }
}

/// Returns the answer on the procedure with the number `p`, of which `own` is the answer by its own
/// goals.
fn answer(
    alloc: Global,
    typed: &Typed,
    p: u32,
    own: Answer,
    marks: &[bool],
) -> Result<Answer, AllocError>
    requires there { p < length typed.now.procs.items }
    requires rules { MeetsAllRules typed.now }
    requires each { length marks.now ≡ length typed.now.procs.items }
    ensures { (table ranks : List (List GoalOutcome))
        → IsOwnBy (procedures_of typed.now) table ranks p own
        → AreMarks (procedures_of typed.now) table marks.now
        → IfOk result (λ a. IsAnswer (procedures_of typed.now) table ranks p a) }
{
    let verdict = verdict_from(alloc, typed, p, own.verdict, marks)?;
    Ok(Answer {
        name: own.name,
        verdict,
        loops: own.loops,
    })
}

/// Returns the verdict on the procedure with the number `p`, of which `own` is the verdict by its
/// own goals.
fn verdict_from(
    alloc: Global,
    typed: &Typed,
    p: u32,
    own: Verdict,
    marks: &[bool],
) -> Result<Verdict, AllocError>
    requires there { p < length typed.now.procs.items }
    requires rules { MeetsAllRules typed.now }
    requires each { length marks.now ≡ length typed.now.procs.items }
    ensures { (table : List (List GoalOutcome))
        → IsOwnVerdict (procedure_at (procedures_of typed.now) p) (row_at table p) own
        → AreMarks (procedures_of typed.now) table marks.now
        → IfOk result (λ v. IsVerdict (procedures_of typed.now) table p v) }
{
    match own {
        Verdict::Verified => reaching_verdict(alloc, typed, p, marks),
        _ => Ok(own),
    }
}

/// Returns `Conditional` on the first procedure reached from `p` that is marked, or `Verified` if
/// none is.
fn reaching_verdict(
    alloc: Global,
    typed: &Typed,
    p: u32,
    marks: &[bool],
) -> Result<Verdict, AllocError>
    requires there { p < length typed.now.procs.items }
    requires rules { MeetsAllRules typed.now }
    requires each { length marks.now ≡ length typed.now.procs.items }
    ensures { (table : List (List GoalOutcome)) → IsClosed (procedures_of typed.now) table p
        → AreMarks (procedures_of typed.now) table marks.now
        → IfOk result (λ v. IsVerdict (procedures_of typed.now) table p v) }
{
    let reached = reach(alloc, typed, p)?;
    match first_marked(marks, &reached) {
        Some(q) => Ok(Verdict::Conditional(q)),
        None => Ok(Verdict::Verified),
    }
}

/// Returns the first of the numbers that is marked.
fn first_marked(marks: &[bool], numbers: &[u32]) -> Option<u32>
    requires { All (λ q. q < length marks.now) numbers.now }
    ensures { result ≡ first_marked marks.now numbers.now }
{
    for q in numbers {
        if marks[*q as usize] {
            return Some(*q);
        }
    }
    None
}
