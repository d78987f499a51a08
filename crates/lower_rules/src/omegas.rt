//! Omega invariants of the loop of a proc with `@wlp`.

ghost use Rattle.heyvl_acts.specs.FormSizes.{FormsWithin};
ghost use Rattle.heyvl_acts.specs.PlainActs.{procedures_of};
ghost use Rattle.heyvl_acts.specs.Rules.{Each, MeetsAllRules};
ghost use Rattle.lower_rules.specs.OmegaAnswers.{IsOmegaAnswer, OmegaHolds, ShownStateFails};
ghost use Rattle.lower_goals.specs.declared.answers.Omega.TheVariants.{Holds};
ghost use Rattle.lower_goals.specs.LentOmegaPairs.{IsReady};
ghost use Rattle.lower_rules.specs.internal.PairDecisions.{IsStep, IsToldOf};
ghost use Rattle.std.specs.Prelude.{IfOk, length, ◌<◌, ◌^◌, ◌≡◌};

use crate::decisions::decided;
use crate::laws::omega_bounds_runs;
use crate::pair_answers::{answer_of, both};
use goal_answers::Decision;
use heyvl_acts::Typed;
use lower_goals::pairs::{Pair, pair_of};
use lower_goals::{Omega, Step, step_goal};
use std::alloc::{AllocError, Global};
use vp_generator::{
    generated_form_means_acts, prenexed_form_means_choices, prenexed_goals_speak_of_choices,
};

/// Decides whether the pre of the procedure `q` is an omega invariant of the loop of `p`: for each
/// m, a lower bound on the expected post of the runs that terminate within m iterations. Returns
///
/// - `Shape` exactly if the procedures are no omega pair;
/// - `Fails` with the first of the three goals that is falsified, and a state;
/// - `Unknown`, if none is falsified, with the first goal that is not decided, and its cause;
/// - `Holds` if all goals are proved.
pub fn omega(alloc: Global, typed: &Typed, p: u32, q: u32) -> Result<Omega, AllocError>
    requires first { p < length typed.now.procs.items }
    requires second { q < length typed.now.procs.items }
    requires rules { MeetsAllRules typed.now }
    requires small { Each (FormsWithin (2 ^ 27)) (procedures_of typed.now) }
    ensures answer { IfOk result (λ answer. IsOmegaAnswer (procedures_of typed.now) p q answer) }
    ensures bound { IfOk result (λ answer. answer ≡ Holds
        → OmegaHolds (procedures_of typed.now) p q) }
    ensures shown { IfOk result (λ answer. ShownStateFails (procedures_of typed.now) p q answer) }
{
    omega_bounds_runs();
    generated_form_means_acts();
    prenexed_form_means_choices();
    prenexed_goals_speak_of_choices();
    match pair_of(alloc, typed, p, q)? {
        Some(pair) => answer_on(alloc, &pair),
        None => Ok(Omega::Shape),
    }
}

/// Returns the answer on a pair, after deciding all its goals.
fn answer_on<'a>(alloc: Global, pair: &Pair<'a>) -> Result<Omega, AllocError>
    requires ready { IsReady pair.now }
    ensures { IfOk result (λ answer. IsToldOf pair.now answer) }
{
    let one = decided_step(alloc, pair, Step::One)?;
    let base = decided_step(alloc, pair, Step::Base)?;
    let turn = decided_step(alloc, pair, Step::Turn)?;
    let behind = both(answer_of(Step::Base, base), answer_of(Step::Turn, turn));
    Ok(both(answer_of(Step::One, one), behind))
}

/// Returns the decision of the goal of a step.
fn decided_step<'a>(alloc: Global, pair: &Pair<'a>, step: Step) -> Result<Decision, AllocError>
    requires { IsReady pair.now }
    ensures { IfOk result (λ d. IsStep pair.now step d) }
{
    generated_form_means_acts();
    prenexed_form_means_choices();
    prenexed_goals_speak_of_choices();
    let made = step_goal(alloc, pair, step)?;
    decided(alloc, &made)
}
