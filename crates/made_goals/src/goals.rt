//! Goals whose computed form may have binders.

ghost use Rattle.heylo_formula.specs.BinderNames.{binders};
ghost use Rattle.heylo_formula.specs.PlainTrees.{form_of};
ghost use Rattle.heyvl_acts.specs.PlainActs.{acts_of, variable_of};
ghost use Rattle.heyvl_acts.specs.Rules.{AreNamed};
ghost use Rattle.made_goals.specs.MadeGoals.{goal_over};
ghost use Rattle.std.specs.Prelude.{IfOk, length, map, ◌<◌, ◌^◌};
ghost use Rattle.vp_generator.specs.Fit.{AreFit};
ghost use Rattle.vp_generator.specs.GeneratedForms.{vp};
ghost use Rattle.vp_generator.specs.PrenexedGoals.{IsMadeWithin};

use crate::copies::copied;
use heylo_formula::{Form, Made};
use heyvl_acts::{Act, VarInfo};
use std::alloc::{AllocError, Global};
use vp_generator::{VpStop, goal_of_forms, vp};

/// Returns the goal that compares the bound `stated` with the form computed from `acts` and `post`,
/// over the variables `vars`; or the limit that the computed form with its binders exceeds.
pub fn generated_goal(
    alloc: Global,
    upper: bool,
    vars: &[VarInfo],
    stated: &Form,
    acts: &[Act],
    post: &Form,
) -> Result<Made, AllocError>
    requires few { length vars.now < 2 ^ 30 }
    requires fit { AreFit (acts_of acts.now) (form_of post.now) }
    requires named { AreNamed (length vars.now)
        (binders (vp (acts_of acts.now) (form_of post.now))) }
    ensures { let found = vp (acts_of acts.now) (form_of post.now) in
        IfOk result (λ made.
        IsMadeWithin found (goal_over upper (map variable_of vars.now) (form_of stated.now) found)
        made) }
{
    match vp(alloc, acts, post.copy(alloc)?) {
        Ok(found) => goal_over(alloc, upper, vars, stated, found),
        Err(VpStop::Depth) => Ok(Made::Depth),
        Err(VpStop::Nodes) => Ok(Made::Nodes),
        Err(VpStop::Memory(error)) => Err(error),
    }
}

/// Returns the goal that compares the bound `stated` with the computed form `found`, over the
/// variables `vars`; or the limit that `found` with its binders exceeds.
pub fn goal_over(
    alloc: Global,
    upper: bool,
    vars: &[VarInfo],
    stated: &Form,
    found: Form,
) -> Result<Made, AllocError>
    requires few { length vars.now < 2 ^ 30 }
    requires named { AreNamed (length vars.now) (binders (form_of found)) }
    ensures { IfOk result (λ made.
        IsMadeWithin (form_of found)
        (goal_over upper (map variable_of vars.now) (form_of stated.now) (form_of found)) made) }
{
    let own = copied(alloc, vars)?;
    goal_of_forms(alloc, upper, stated.copy(alloc)?, found, own)
}
