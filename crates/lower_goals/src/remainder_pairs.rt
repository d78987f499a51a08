//! Remainder pairs.

ghost use Rattle.heyvl_acts.specs.Acts.{procedure_at};
ghost use Rattle.heyvl_acts.specs.PlainActs.{procedures_of};
ghost use Rattle.heyvl_acts.specs.Rules.{MeetsAllRules};
ghost use Rattle.lower_goals.specs.LentRemainderPairs.{ArePair};
ghost use Rattle.lower_goals.specs.internal.Parts.{IsRankedAs};
ghost use Rattle.std.specs.Prelude.{length, ◌<◌};

use crate::input_bounds::is_input_bound;
use crate::shapes::{LoopParts, one_loop};
use heylo_formula::Form;
use heyvl_acts::{Act, Typed};
use heyvl_num::Frac;

/// The parts of a remainder pair: the acts before the one loop, the loop's number, and its ranking
/// with the step.
#[derive(Drop)]
pub struct RankedParts<'a> {
    pub front: &'a [Act],
    pub number: u32,
    pub step: Frac,
    pub ranking: &'a Form,
}

/// Returns the parts of the remainder pair of the procedures `p` and `q`, or `None` exactly if they
/// are none.
pub fn pair_of<'a>(typed: &'a Typed, p: u32, q: u32) -> Option<RankedParts<'a>>
    requires first { p < length typed.now.procs.items }
    requires second { q < length typed.now.procs.items }
    requires rules { MeetsAllRules typed.now }
    ensures { ArePair (procedure_at (procedures_of typed.now) p)
        (procedure_at (procedures_of typed.now) q) result }
{
    if !is_input_bound(&typed.procs[p as usize], &typed.procs[q as usize]) {
        return None;
    }
    match one_loop(typed, p) {
        Some(parts) => ranked(parts),
        None => None,
    }
}

/// Returns the parts of a procedure with one loop, or `None` if the loop has no ranking.
fn ranked<'a>(parts: LoopParts<'a>) -> Option<RankedParts<'a>>
    ensures { IsRankedAs parts.entry result }
{
    match &parts.one.rank {
        Some((step, ranking)) => Some(RankedParts {
            front: parts.front,
            number: parts.one.number,
            step: *step,
            ranking,
        }),
        None => None,
    }
}
