//! The two sides of the goals of an omega pair.

ghost use Rattle.heylo_formula.specs.Formula.{Form as plain};
ghost use Rattle.heylo_formula.specs.PlainTrees.{cond_of, form_of};
ghost use Rattle.heyvl_acts.specs.Acts.{variables};
ghost use Rattle.heyvl_acts.specs.Rules.{Each};
ghost use Rattle.lower_goals.specs.OmegaGoals.{greater, limited, smaller};
ghost use Rattle.lower_goals.specs.OmegaPairs.{formula_of};
ghost use Rattle.lower_goals.specs.LentOmegaPairs.{IsMadeStep, IsReady, behind, body, first, head};
ghost use Rattle.lower_goals.specs.LentOmegaPairs.{second};
ghost use Rattle.std.specs.Prelude.{IfOk, length, ◌≡◌};
ghost use Rattle.vp_generator.specs.Limits.{IsSmall};

use crate::answers::Step;
use crate::pair_variables::goal_variables;
use crate::pairs::Pair;
use heylo_formula::{Cond, Form, Made, Term};
use heyvl_num::Ext;
use made_goals::upper_goal;
use std::alloc::{AllocError, Global};
use vp_generator::{generated_form_means_acts, prenexed_form_means_choices};

/// Returns the form that is `taken` if the guard holds, otherwise `other`.
pub(crate) fn guarded(
    alloc: Global,
    guard: &Cond,
    taken: Form,
    other: Form,
) -> Result<Form, AllocError>
    ensures { IfOk result (λ form. form_of form
        ≡ plain.select (cond_of guard.now) (form_of taken) (form_of other)) }
{
    let guard = Box::new(alloc, guard.copy(alloc)?)?;
    let taken = Box::new(alloc, taken)?;
    Ok(Form::Select(guard, taken, Box::new(alloc, other)?))
}

/// Returns the smaller side of a step's goal.
fn smaller<'a>(alloc: Global, pair: &Pair<'a>, step: Step) -> Result<Form, AllocError>
    requires ready { IsReady pair.now }
    ensures { IfOk result (λ form. form_of form
        ≡ smaller (length (variables (first pair.now)))
        (formula_of (first pair.now) (head pair.now) (second pair.now)) step) }
{
    let turns = pair.procedure.vars.len() as u32;
    match step {
        Step::One => pair.formula.copy(alloc),
        Step::Base => {
            let none = Term::Num(Form::Const(Ext::zero()));
            pair.formula.subst(alloc, turns, &none)
        }
        Step::Turn => {
            let before = Box::new(alloc, Form::Var(turns))?;
            let one = Box::new(alloc, Form::Const(Ext::one()))?;
            let more = Term::Num(Form::Sum(before, one));
            pair.formula.subst(alloc, turns, &more)
        }
    }
}

/// Returns the goal of a step with this larger side.
pub(crate) fn goal_with<'a>(
    alloc: Global,
    pair: &Pair<'a>,
    step: Step,
    stated: Form,
) -> Result<Made, AllocError>
    requires ready { IsReady pair.now }
    requires stated { form_of stated
        ≡ greater (first pair.now) (head pair.now) (body pair.now) (behind pair.now)
        (formula_of (first pair.now) (head pair.now) (second pair.now)) step }
    requires small { Each IsSmall
        (limited (first pair.now) (body pair.now) (behind pair.now)
        (formula_of (first pair.now) (head pair.now) (second pair.now)) step) }
    ensures { IfOk result (λ made. IsMadeStep pair.now step made) }
{
    generated_form_means_acts();
    prenexed_form_means_choices();
    let found = smaller(alloc, pair, step)?;
    let vars = goal_variables(alloc, pair)?;
    Ok(Made::Goal(upper_goal(alloc, stated, found, vars)?))
}
