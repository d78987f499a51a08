//! The comparison of the sum after one number of steps with the pre.

ghost use Rattle.std.specs.Prelude.{◌≡◌, ◌≤◌, IfOk, min};
ghost use Rattle.heyvl_acts.specs.PlainActs.{procedures_of};
ghost use Rattle.heyvl_acts.specs.Rules.{MeetsAllRules};
ghost use Rattle.heyvl_num.specs.ExtendedNumbers.{value_of};
ghost use Rattle.refute_runs.specs.SumsAfter.{Unrollings, unrolled_from};
ghost use Rattle.refute_runs.specs.internal.Probes.{IsSeen};
ghost use Rattle.run_machine.specs.Names.{stored};
ghost use Rattle.run_unroller.specs.Unrolling.{Begins, Unrolling, totals_of};

use crate::answers::Refuted;
use heyvl_acts::Typed;
use heyvl_num::Ext;
use run_machine::{Config, Decide};
use run_unroller::{Sums, Unrolled, unroll};
use std::alloc::{AllocError, Global};
use std::cmp::Ordering;

/// The result of comparing the sum after one number of steps.
#[derive(Drop)]
pub(crate) enum Probe {
    /// The sum, which is not above the pre.
    Within(Ext),
    /// The number of steps below which the search continues, and the answer if no smaller number
    /// has one: the sum is above the pre, or a step is stopped.
    Until(u32, Refuted),
}

/// Unrolls `n` steps and compares the sum with the pre.
pub(crate) fn look_at(
    alloc: Global,
    typed: &Typed,
    p: u32,
    start: &Config,
    script: &[Decide],
    pre: &Ext,
    n: u32,
) -> Result<Probe, AllocError>
    requires rules { MeetsAllRules typed.now }
    requires begins { Begins (procedures_of typed.now) p (stored start.now) }
    requires steps { n ≤ 10000 }
    ensures { IfOk result (λ seen.
        IsSeen (unrolled_from (procedures_of typed.now) p (stored start.now) script.now)
        (value_of pre.now) n seen) }
{
    match unroll(alloc, typed, p, start, script, n)? {
        Unrolled::Sums(sums) => Ok(beside(&sums, pre, n)),
        Unrolled::Full(step) => Ok(stopped(step, n, Unrolled::Full(step))),
        Unrolled::Deep(step) => Ok(stopped(step, n, Unrolled::Deep(step))),
        Unrolled::Bits(step) => Ok(stopped(step, n, Unrolled::Bits(step))),
    }
}

/// Returns the result if this step is stopped, or the adding after `n` steps, which counts as the
/// next step.
fn stopped(step: u32, n: u32, answer: Unrolled) -> Probe
    ensures { result ≡ Probe.Until (min step n) (Refuted.Stopped (min step n) answer) }
{
    if step > n {
        until(n, answer)
    } else {
        until(step, answer)
    }
}

/// Returns the result that the search continues below `steps`, with a stop as the answer if no
/// smaller number has one.
fn until(steps: u32, answer: Unrolled) -> Probe
    ensures { result ≡ Probe.Until steps (Refuted.Stopped steps answer) }
{
    Probe::Until(steps, Refuted::Stopped(steps, answer))
}

/// Returns the result of comparing the sum after `n` steps with the pre.
fn beside(sums: &Sums, pre: &Ext, n: u32) -> Probe
    requires { n ≤ 10000 }
    ensures { (us : Unrollings) → us n ≡ Unrolling.sums (totals_of sums.now)
        → IsSeen us (value_of pre.now) n result }
{
    let Some(sum) = sums.reward.add(&sums.post) else {
        return until(n, Unrolled::Bits(n + 1));
    };
    match pre.compare(&sum) {
        Some(Ordering::Less) => Probe::Until(n, Refuted::Violation(n, sum, *pre)),
        Some(Ordering::Equal) => Probe::Within(sum),
        Some(Ordering::Greater) => Probe::Within(sum),
        None => until(n, Unrolled::Bits(n + 1)),
    }
}
