//! The goal of a remainder.

ghost use Rattle.heylo_formula.specs.BinderNames.{binders};
ghost use Rattle.heylo_formula.specs.PlainTrees.{form_of};
ghost use Rattle.heyvl_acts.specs.PlainActs.{acts_of, variable_of};
ghost use Rattle.heyvl_acts.specs.Rules.{AreNamed};
ghost use Rattle.heyvl_acts.specs.Upward.{upward};
ghost use Rattle.made_goals.specs.MadeGoals.{goal_over};
ghost use Rattle.std.specs.Prelude.{IfOk, length, map, true, ◌<◌, ◌^◌};
ghost use Rattle.vp_generator.specs.Fit.{AreFit};
ghost use Rattle.vp_generator.specs.GeneratedForms.{vp};
ghost use Rattle.vp_generator.specs.PrenexedGoals.{IsMadeWithin};

use heylo_formula::{Form, Made};
use heyvl_acts::{Act, VarInfo};
use made_goals::generated_goal;
use ranking_rule::upward;
use std::alloc::{AllocError, Global};

/// Returns the goal with `bound` as the stated bound, over these variables. Its computed form is
/// the pre-expectation of the ranking over the acts, taken upward. Returns the limit that this
/// form, with its binders, exceeds.
pub(crate) fn start_goal(
    alloc: Global,
    vars: &[VarInfo],
    front: &[Act],
    ranking: &Form,
    bound: &Form,
) -> Result<Made, AllocError>
    requires few { length vars.now < 2 ^ 30 }
    requires fit { AreFit (upward (acts_of front.now)) (form_of ranking.now) }
    requires named { AreNamed (length vars.now)
        (binders (vp (upward (acts_of front.now)) (form_of ranking.now))) }
    ensures { let found = vp (upward (acts_of front.now)) (form_of ranking.now) in
        IfOk result (λ made.
        IsMadeWithin found (goal_over true (map variable_of vars.now) (form_of bound.now) found)
        made) }
{
    let acts = upward(alloc, front)?;
    generated_goal(alloc, true, vars, bound, &acts, ranking)
}
