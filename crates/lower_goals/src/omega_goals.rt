//! The goals of an omega pair, for functions that name their variables.

ghost use Rattle.heyvl_acts.specs.Acts.{procedure_at};
ghost use Rattle.heyvl_acts.specs.FormSizes.{FormsWithin};
ghost use Rattle.heyvl_acts.specs.PlainActs.{procedures_of};
ghost use Rattle.heyvl_acts.specs.Rules.{Each, MeetsAllRules};
ghost use Rattle.lower_goals.specs.OmegaGoals.{limited, step_goal};
ghost use Rattle.lower_goals.specs.OmegaPairs.{OmegaPair, formula_of};
ghost use Rattle.lower_goals.specs.LimitedGoals.{IsMadeFor};
ghost use Rattle.std.specs.Prelude.{IfOk, length, ◌<◌, ◌^◌};

use crate::answers::Step;
use crate::pairs::pair_of;
use crate::step_goals::step_goal;
use heylo_formula::Made;
use heyvl_acts::Typed;
use std::alloc::{AllocError, Global};

/// Returns the goal of a step of the omega pair of the procedures `p` and `q`, or a limit that one
/// of its forms exceeds.
pub fn omega_goal(
    alloc: Global,
    typed: &Typed,
    p: u32,
    q: u32,
    step: Step,
) -> Result<Made, AllocError>
    requires first { p < length typed.now.procs.items }
    requires second { q < length typed.now.procs.items }
    requires rules { MeetsAllRules typed.now }
    requires small { Each (FormsWithin (2 ^ 27)) (procedures_of typed.now) }
    requires pair { OmegaPair (procedure_at (procedures_of typed.now) p)
        (procedure_at (procedures_of typed.now) q) }
    ensures { (l : OmegaPair (procedure_at (procedures_of typed.now) p)
        (procedure_at (procedures_of typed.now) q))
        → IfOk result
        (λ made. IsMadeFor
        (step_goal (procedure_at (procedures_of typed.now) p) l.loop.head l.loop.body l.loop.behind
        (procedure_at (procedures_of typed.now) q) step)
        (limited (procedure_at (procedures_of typed.now) p) l.loop.body l.loop.behind
        (formula_of (procedure_at (procedures_of typed.now) p) l.loop.head
        (procedure_at (procedures_of typed.now) q)) step) made) }
{
    match pair_of(alloc, typed, p, q)? {
        Some(pair) => step_goal(alloc, &pair, step),
        None => unreachable!(),
    }
}
