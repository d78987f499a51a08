//! Runs, unrolled for a number of steps.

ghost use Rattle.std.specs.Prelude.{◌≡◌, ◌≤◌, ◌+◌, IfOk};
ghost use Rattle.heyvl_acts.specs.Acts.{procedure_at};
ghost use Rattle.heyvl_acts.specs.PlainActs.{procedures_of};
ghost use Rattle.heyvl_acts.specs.Rules.{MeetsAllRules};
ghost use Rattle.run_machine.specs.Names.{stored};
ghost use Rattle.run_machine.specs.Replies.{stored_outcomes};
ghost use Rattle.run_unroller.specs.RunLists.{begun};
ghost use Rattle.run_unroller.specs.Totals.{totals};
ghost use Rattle.run_unroller.specs.Unrolling.{Begins, Unrolling, sums_or, unrolled, unrolling_of};
ghost use Rattle.run_unroller.specs.internal.Extensions.{IsAfter};
ghost use Rattle.run_unroller.specs.internal.Growth.{AllWithin};
ghost use Rattle.run_unroller.specs.internal.RunViews.{runs_of};

use crate::answers::Unrolled;
use crate::causes::{Cause, Grown, Reached};
use crate::lists::after_step;
use crate::merged_runs::MergedRuns;
use crate::totals::sums;
use heyvl_acts::Typed;
use heyvl_num::Frac;
use run_machine::{Config, Decide};
use std::alloc::{AllocError, Global};

/// Returns the sums over all runs of at most `n` steps, where the decision number j of each run is
/// the script's entry j, or the first limit that stops them:
///
/// - `Full` exactly if the runs of a step have more than 65,536 different configurations;
/// - `Deep` exactly if the state and all frames of a configuration have more than 512 values;
/// - `Bits` exactly if a number overflows, including the sum of the weights of merged runs.
pub fn unroll(
    alloc: Global,
    typed: &Typed,
    p: u32,
    start: &Config,
    script: &[Decide],
    n: u32,
) -> Result<Unrolled, AllocError>
    requires rules { MeetsAllRules typed.now }
    requires begins { Begins (procedures_of typed.now) p (stored start.now) }
    requires steps { n ≤ 10000 }
    ensures { IfOk result (λ answer. unrolling_of answer
        ≡ unrolled (procedures_of typed.now) p script.now n (begun (stored start.now))) }
{
    let runs = MergedRuns::only(alloc, start)?;
    match after(alloc, typed, script, runs, n)? {
        Reached::Stopped(cause, step) => Ok(stopped(cause, step)),
        Reached::Runs(list) => {
            let runs = list.into_runs(alloc)?;
            added(alloc, typed, p, &runs, n)
        }
    }
}

/// Returns the result if no step is stopped: the sums, or `Bits` at the step after the last.
fn added(
    alloc: Global,
    typed: &Typed,
    p: u32,
    runs: &[(Frac, Config)],
    n: u32,
) -> Result<Unrolled, AllocError>
    requires { n ≤ 10000 }
    ensures { IfOk result (λ answer. unrolling_of answer
        ≡ sums_or (n + 1)
        (totals (procedure_at (procedures_of typed.now) p) (stored_outcomes runs.now))) }
{
    match sums(alloc, typed, p, runs)? {
        None => Ok(Unrolled::Bits(n + 1)),
        Some(sums) => Ok(Unrolled::Sums(sums)),
    }
}

/// Returns the list of runs after `n` steps under the script, or the first cause that stops them.
fn after(
    alloc: Global,
    typed: &Typed,
    script: &[Decide],
    start: MergedRuns,
    n: u32,
) -> Result<Reached, AllocError>
    requires rules { MeetsAllRules typed.now }
    requires within { AllWithin (procedures_of typed.now) 0 (runs_of start.entries.entries) }
    requires steps { n ≤ 10000 }
    ensures { IfOk result (λ reached.
        IsAfter (procedures_of typed.now) script.now n (runs_of start.entries.entries) reached) }
{
    let mut runs = start;
    for made in 0..n {
        match after_step(alloc, typed, script, runs)? {
            Grown::Stopped(cause) => return Ok(Reached::Stopped(cause, made + 1)),
            Grown::Runs(next) => runs = next,
        }
    }
    Ok(Reached::Runs(runs))
}

/// Returns the result if `cause` stops the step.
fn stopped(cause: Cause, step: u32) -> Unrolled
    ensures { unrolling_of result ≡ Unrolling.stopped cause step }
{
    match cause {
        Cause::Full => Unrolled::Full(step),
        Cause::Deep => Unrolled::Deep(step),
        Cause::Bits => Unrolled::Bits(step),
    }
}
