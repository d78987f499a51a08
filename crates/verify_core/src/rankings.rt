//! The goals of the rankings of a procedure's loops.

ghost use Rattle.act_walks.specs.Lent.{lent};
ghost use Rattle.heyvl_acts.specs.Acts.{procedure_at};
ghost use Rattle.heyvl_acts.specs.PlainActs.{procedure_of, procedures_of};
ghost use Rattle.heyvl_acts.specs.Rules.{MeetsAllRules};
ghost use Rattle.std.specs.Prelude.{IfOk, length, map, ◌<◌, ◌≡◌};
ghost use Rattle.verify_core.specs.Rankings.{AreRankingGoals, ranked_in, ranked_loops};

use act_walks::in_order;
use goal_answers::NamedGoal;
use heylo_formula::GoalId;
use heyvl_acts::{Act, TProc, Typed};
use ranking_rule::ranking_goal;
use std::alloc::{AllocError, Global};

/// Returns one goal for each ranking, in the order of the text.
pub(crate) fn rankings(alloc: Global, typed: &Typed, p: u32) -> Result<Vec<NamedGoal>, AllocError>
    requires there { p < length typed.now.procs.items }
    requires rules { MeetsAllRules typed.now }
    ensures { IfOk result (λ all.
        AreRankingGoals (procedures_of typed.now) p
        (ranked_loops (procedure_at (procedures_of typed.now) p)) all.items) }
{
    let numbers = ranked_loops(alloc, &typed.procs[p as usize])?;
    let mut all = Vec::new(alloc);
    for number in numbers {
        let made = ranking_goal(alloc, typed, p, number)?;
        all.push(NamedGoal {
            proc: p,
            id: GoalId::Ranking(number),
            made,
        })?;
    }
    Ok(all)
}

/// Returns the numbers of the procedure's loops with a ranking, in the order of the text.
fn ranked_loops(alloc: Global, procedure: &TProc) -> Result<Vec<u32>, AllocError>
    ensures { IfOk result (λ all. all.items ≡ ranked_loops (procedure_of procedure.now)) }
{
    let acts = in_order(alloc, procedure)?;
    ranked_among(alloc, &acts)
}

/// Returns the numbers of those of the acts that are loops with a ranking.
fn ranked_among(alloc: Global, acts: &[&Act]) -> Result<Vec<u32>, AllocError>
    ensures { IfOk result (λ all. all.items ≡ ranked_in (map lent acts.now)) }
{
    let mut all = Vec::new(alloc);
    for act in acts {
        if let Act::Loop(one) = act {
            if one.rank.is_some() {
                all.push(one.number)?;
            }
        }
    }
    Ok(all)
}
