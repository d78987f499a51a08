//! The goal of a remainder pair.

ghost use Rattle.heylo_formula.specs.PlainTrees.{form_of};
ghost use Rattle.heyvl_acts.specs.Acts.{procedure_at};
ghost use Rattle.heyvl_acts.specs.PlainActs.{acts_of, procedures_of};
ghost use Rattle.heyvl_acts.specs.Rules.{MeetsAllRules};
ghost use Rattle.lower_goals.specs.RemainderPairs.{RemainderPair};
ghost use Rattle.lower_goals.specs.StartGoals.{start_goal};
ghost use Rattle.lower_goals.specs.LentRemainderPairs.{IsPairAs};
ghost use Rattle.vp_generator.specs.PrenexedGoals.{IsMadeWithin};
ghost use Rattle.ranking_rule.specs.RankingGoals.{generated};
ghost use Rattle.std.specs.Prelude.{IfOk, length, ◌<◌};

use crate::remainder_pairs::{RankedParts, pair_of};
use crate::start_goals::start_goal;
use heylo_formula::Made;
use heyvl_acts::Typed;
use std::alloc::{AllocError, Global};
use vp_generator::generated_form_means_acts;

/// Returns the goal of the remainder pair of the procedures `p` and `q`: the pre of `q`, over the
/// inputs of `p`, is at least the pre-expectation of the ranking over the acts before the loop,
/// taken upward. Returns `Depth` or `Nodes` if this pre-expectation exceeds the limit.
pub fn remainder_goal(alloc: Global, typed: &Typed, p: u32, q: u32) -> Result<Made, AllocError>
    requires first { p < length typed.now.procs.items }
    requires second { q < length typed.now.procs.items }
    requires rules { MeetsAllRules typed.now }
    requires pair { RemainderPair (procedure_at (procedures_of typed.now) p)
        (procedure_at (procedures_of typed.now) q) }
    ensures { (l : RemainderPair (procedure_at (procedures_of typed.now) p)
        (procedure_at (procedures_of typed.now) q))
        → IfOk result
        (λ made. IsMadeWithin (generated l.loop.front l.rank)
        (start_goal (procedure_at (procedures_of typed.now) p) l.loop.front l.rank
        (procedure_at (procedures_of typed.now) q).pre) made) }
{
    match pair_of(typed, p, q) {
        Some(parts) => made_of(alloc, typed, p, q, &parts),
        None => unreachable!(),
    }
}

/// Returns the goal of a remainder pair with these parts, or the limit that its form exceeds.
pub fn made_of<'a>(
    alloc: Global,
    typed: &Typed,
    p: u32,
    q: u32,
    parts: &RankedParts<'a>,
) -> Result<Made, AllocError>
    requires first { p < length typed.now.procs.items }
    requires second { q < length typed.now.procs.items }
    requires rules { MeetsAllRules typed.now }
    requires pair { IsPairAs (procedure_at (procedures_of typed.now) p)
        (procedure_at (procedures_of typed.now) q) parts.now }
    ensures { IfOk result (λ made.
        IsMadeWithin
        (generated (acts_of parts.now.front.now) (parts.now.step, form_of parts.now.ranking.now))
        (start_goal (procedure_at (procedures_of typed.now) p) (acts_of parts.now.front.now)
        (parts.now.step, form_of parts.now.ranking.now)
        (procedure_at (procedures_of typed.now) q).pre) made) }
{
    generated_form_means_acts();
    let procedure = &typed.procs[p as usize];
    let bound = &typed.procs[q as usize];
    start_goal(
        alloc,
        &procedure.vars,
        parts.front,
        parts.ranking,
        &bound.pre,
    )
}
