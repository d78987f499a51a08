//! The search by bisection. It is right because sums do not decrease with the number of steps, and
//! a stopped step stays stopped in longer runs.

ghost use Rattle.std.specs.Prelude.{◌≤◌, IfOk, Some};
ghost use Rattle.heyvl_acts.specs.PlainActs.{procedures_of};
ghost use Rattle.heyvl_acts.specs.Rules.{MeetsAllRules};
ghost use Rattle.heyvl_num.specs.ExtendedNumbers.{value_of};
ghost use Rattle.refute_runs.specs.RefutedAnswers.{MayCome};
ghost use Rattle.refute_runs.specs.SumsAfter.{unrolled_from};
ghost use Rattle.refute_runs.specs.internal.Probes.{IsCandidate, IsLeast};
ghost use Rattle.run_machine.specs.Names.{stored};
ghost use Rattle.run_unroller.specs.Unrolling.{Begins};

use crate::answers::Refuted;
use crate::probes::{Probe, look_at};
use heyvl_acts::Typed;
use heyvl_num::Ext;
use run_machine::{Config, Decide};
use std::alloc::{AllocError, Global};

/// Returns the answer of a search up to `n` steps. It compares the sum after `n` steps first.
pub(crate) fn search(
    alloc: Global,
    typed: &Typed,
    p: u32,
    start: &Config,
    script: &[Decide],
    pre: &Ext,
    n: u32,
) -> Result<Refuted, AllocError>
    requires rules { MeetsAllRules typed.now }
    requires begins { Begins (procedures_of typed.now) p (stored start.now) }
    requires steps { n ≤ 10000 }
    ensures { IfOk result (λ answer.
        MayCome (unrolled_from (procedures_of typed.now) p (stored start.now) script.now)
        (Some (value_of pre.now)) n answer) }
{
    match look_at(alloc, typed, p, start, script, pre, n)? {
        Probe::Within(sum) => Ok(Refuted::Within(sum, *pre)),
        Probe::Until(steps, answer) => { below(alloc, typed, p, start, script, pre, steps, answer) }
    }
}

/// Returns the answer of a search below `steps`, where `found` is the answer if no smaller number
/// of steps has one.
fn below(
    alloc: Global,
    typed: &Typed,
    p: u32,
    start: &Config,
    script: &[Decide],
    pre: &Ext,
    steps: u32,
    found: Refuted,
) -> Result<Refuted, AllocError>
    requires rules { MeetsAllRules typed.now }
    requires begins { Begins (procedures_of typed.now) p (stored start.now) }
    requires steps { steps ≤ 10000 }
    requires candidate { IsCandidate
        (unrolled_from (procedures_of typed.now) p (stored start.now) script.now)
        (value_of pre.now) steps found }
    ensures { IfOk result (λ answer.
        IsLeast (unrolled_from (procedures_of typed.now) p (stored start.now) script.now)
        (value_of pre.now) steps answer) }
{
    let mut low = 0;
    let mut high = steps;
    let mut answer = found;
    while low < high {
        let middle = low + (high - low) / 2;
        match look_at(alloc, typed, p, start, script, pre, middle)? {
            Probe::Within(_) => low = middle + 1,
            Probe::Until(fewer, better) => {
                high = fewer;
                answer = better;
            }
        }
    }
    Ok(answer)
}
