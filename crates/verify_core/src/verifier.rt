//! The answers on a file.

ghost use Rattle.cert_text.specs.Certificates.{IsGrowingAfter, certificates_of};
ghost use Rattle.heyvl_acts.specs.FormSizes.{FormsWithin};
ghost use Rattle.heyvl_acts.specs.PlainActs.{procedures_of};
ghost use Rattle.heyvl_acts.specs.Rules.{Each, MeetsAllRules};
ghost use Rattle.std.specs.Prelude.{IfOk, None, [], length, ◌≡◌, ◌^◌, ℕ};
ghost use Rattle.verdict_report.specs.PlacedAnswers.{IsAnswerPlaced};
ghost use Rattle.verify_core.specs.AnsweredProcedures.{AreAnswered};
ghost use Rattle.verify_core.specs.CheckedAnswers.{IsCheckedFile};
ghost use Rattle.verify_core.specs.Headline.{IsHeadline};
ghost use Rattle.heyvl_acts.specs.StandingParts.{StandsWithin};
ghost use Rattle.verify_core.specs.internal.Own.{CanAnswer, IsWhole};

use crate::answering::own_answers;
use crate::laws::made_goals_say_bounds;
use crate::reached_answers::answers;
use crate::settled_goals::Way;
use crate::whole::Whole;
use bounded_runs::{broken_goals_break_bounds, shown_bounds_hold};
use farkas_check::certified_goals_hold;
use goal_answers::GoalCert;
use heyvl_acts::Typed;
use loop_encodings::encodings_are_over_their_variables;
use ranking_rule::{ranking_goals_say_rankings, rankings_bound_turns};
use std::alloc::{AllocError, Global};
use vp_generator::{generated_form_means_acts, prenexed_goals_speak_of_choices};

/// Returns the answers on the procedures of the file, by deciding its goals. The answer on a bound
/// depends on its own goals, the procedure's kind and the procedures that it reaches; the answer on
/// a ranking depends on its own goal alone.
pub fn verify(alloc: Global, typed: &Typed) -> Result<Whole, AllocError>
    requires rules { MeetsAllRules typed.now }
    requires small { Each (FormsWithin (2 ^ 27)) (procedures_of typed.now) }
    ensures answered { IfOk result
        (λ whole. AreAnswered (procedures_of typed.now) whole.answers.items whole.made.items
        whole.certs.items) }
    ensures placed { (bytes : ℕ) → Each (StandsWithin bytes) (procedures_of typed.now)
        → IfOk result
        (λ whole. Each (IsAnswerPlaced bytes (length typed.now.procs.items)) whole.answers.items) }
    ensures headline { IfOk result
        (λ whole. IsHeadline (procedures_of typed.now) whole.answers.items) }
{
    whole_by(alloc, typed, Way::Decide)
}

/// Returns the answers on the procedures of the file, by checking its goals with `certs`. The
/// answer on a bound depends on its own goals, the procedure's kind and the procedures that it
/// reaches; the answer on a ranking depends on its own goal alone.
///
/// The certificates have to be in the order of their text. Certificates of goals that the file does
/// not have are not used. If a goal's form passes a limit, its certificate is refused at the root.
/// The bound of a verified procedure holds over all runs, and a ranking bounds the iterations of a
/// ranked loop.
pub fn check_all(alloc: Global, typed: &Typed, certs: &[GoalCert]) -> Result<Whole, AllocError>
    requires rules { MeetsAllRules typed.now }
    requires order { IsGrowingAfter None (certificates_of certs.now) }
    ensures checked { IfOk result
        (λ whole. IsCheckedFile (procedures_of typed.now) certs.now whole.answers.items) }
    ensures placed { (bytes : ℕ) → Each (StandsWithin bytes) (procedures_of typed.now)
        → IfOk result
        (λ whole. Each (IsAnswerPlaced bytes (length typed.now.procs.items)) whole.answers.items) }
    ensures headline { IfOk result
        (λ whole. IsHeadline (procedures_of typed.now) whole.answers.items) }
    ensures made { IfOk result (λ whole. whole.made.items ≡ []) }
    ensures certs { IfOk result (λ whole. whole.certs.items ≡ []) }
{
    whole_by(alloc, typed, Way::Check(certs))
}

/// Returns the answers on the procedures of the file, with goals settled in this way.
fn whole_by(alloc: Global, typed: &Typed, way: Way<'_>) -> Result<Whole, AllocError>
    requires rules { MeetsAllRules typed.now }
    requires ready { CanAnswer way (procedures_of typed.now) }
    ensures whole { IfOk result
        (λ whole. IsWhole way.entry (procedures_of typed.now) whole.answers.items whole.made.items
        whole.certs.items) }
    ensures placed { (bytes : ℕ) → Each (StandsWithin bytes) (procedures_of typed.now)
        → IfOk result
        (λ whole. Each (IsAnswerPlaced bytes (length typed.now.procs.items)) whole.answers.items) }
    ensures headline { IfOk result
        (λ whole. IsHeadline (procedures_of typed.now) whole.answers.items) }
{
    made_goals_say_bounds();
    certified_goals_hold();
    shown_bounds_hold();
    broken_goals_break_bounds();
    encodings_are_over_their_variables();
    generated_form_means_acts();
    prenexed_goals_speak_of_choices();
    ranking_goals_say_rankings();
    rankings_bound_turns();
    let mut certs = Vec::new(alloc);
    let mut made = Vec::new(alloc);
    let own = own_answers(alloc, typed, way, &mut certs, &mut made)?;
    let answers = answers(alloc, typed, own)?;
    Ok(Whole {
        answers,
        made,
        certs,
    })
}
