//! The goals of rankings.

ghost use Rattle.heylo_formula.specs.PlainTrees.{cond_of, form_of};
ghost use Rattle.heyvl_acts.specs.Acts.{procedure_at};
ghost use Rattle.heyvl_acts.specs.PlainActs.{procedures_of};
ghost use Rattle.heyvl_acts.specs.Rules.{MeetsAllRules};
ghost use Rattle.ranking_rule.specs.RankingGoals.{IsMadeOf, tested};
ghost use Rattle.ranking_rule.specs.Rankings.{RankedLoop};
ghost use Rattle.ranking_rule.specs.internal.GuardedGoals.{IsTested};
ghost use Rattle.std.specs.Prelude.{IfOk, length, ◌<◌, ◌≡◌};

use crate::upward_acts::upward;
use act_walks::loop_of;
use heylo_formula::{Cond, Form, Goal, Made};
use heyvl_acts::Typed;
use heyvl_num::{Ext, Frac};
use made_goals::generated_goal;
use std::alloc::{AllocError, Global};
use vp_generator::generated_form_means_acts;

/// Returns the goal of the ranking of the loop `number` of the procedure `p`: an upper goal with
/// the ranking as its stated bound. Its computed form is, if the guard holds, the step plus the
/// pre-expectation of the ranking over the body, otherwise 0.
///
/// Returns `Depth` or `Nodes` if this pre-expectation, with its binders, is more than 1,000 deep or
/// has more than 200,000 nodes.
pub fn ranking_goal(alloc: Global, typed: &Typed, p: u32, number: u32) -> Result<Made, AllocError>
    requires there { p < length typed.now.procs.items }
    requires rules { MeetsAllRules typed.now }
    requires ranked { RankedLoop (procedure_at (procedures_of typed.now) p) number }
    ensures { (l : RankedLoop (procedure_at (procedures_of typed.now) p) number)
        → IfOk result
        (λ made. IsMadeOf (procedure_at (procedures_of typed.now) p) l.head l.body l.rank made) }
{
    let procedure = &typed.procs[p as usize];
    let Some(one) = loop_of(procedure, number) else {
        unreachable!()
    };
    let Some((step, ranking)) = &one.rank else {
        unreachable!()
    };
    generated_form_means_acts();
    let acts = upward(alloc, &one.body)?;
    let made = generated_goal(alloc, true, &procedure.vars, ranking, &acts, ranking)?;
    with_test(alloc, &one.guard, *step, made)
}

/// Returns the goal in which the computed form is `step` plus that of `made` if the guard holds,
/// otherwise 0.
fn with_test(alloc: Global, guard: &Cond, step: Frac, made: Made) -> Result<Made, AllocError>
    ensures { IfOk result (λ tested. IsTested (cond_of guard.now) step made tested) }
{
    match made {
        Made::Goal(goal) => {
            let found = tested(alloc, guard, step, goal.found)?;
            Ok(Made::Goal(Goal {
                upper: goal.upper,
                stated: goal.stated,
                found,
                vars: goal.vars,
                names: goal.names,
                own: goal.own,
            }))
        }
        other => Ok(other),
    }
}

/// Returns `step` plus `form` if the guard holds, otherwise 0.
fn tested(alloc: Global, guard: &Cond, step: Frac, form: Form) -> Result<Form, AllocError>
    ensures { IfOk result (λ made. form_of made ≡ tested (cond_of guard.now) step (form_of form)) }
{
    let step = Box::new(alloc, Form::Const(Ext::Fin(step)))?;
    let taken = Box::new(alloc, Form::Sum(step, Box::new(alloc, form)?))?;
    let guard = Box::new(alloc, guard.copy(alloc)?)?;
    let nothing = Box::new(alloc, Form::Const(Ext::zero()))?;
    Ok(Form::Select(guard, taken, nothing))
}
