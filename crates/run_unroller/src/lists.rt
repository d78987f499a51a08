//! One step of a list of runs.

ghost use Rattle.std.specs.Prelude.{◌≡◌, ◌∷◌, [], IfOk, map};
ghost use Rattle.heyvl_num.specs.Rational.{◌*ʳ◌};
ghost use Rattle.heyvl_num.specs.WeightedSums.{scaled};
ghost use Rattle.heyvl_acts.specs.PlainActs.{procedures_of};
ghost use Rattle.heyvl_acts.specs.Rules.{Each, MeetsAllRules};
ghost use Rattle.run_machine.specs.ConfigConditions.{HasRoom, IsConfig};
ghost use Rattle.run_machine.specs.Names.{decision_of, stored};
ghost use Rattle.run_machine.specs.Replies.{stored_outcome, stored_outcomes};
ghost use Rattle.run_unroller.specs.Causes.{Brought, brought};
ghost use Rattle.run_unroller.specs.RunLists.{follow};
ghost use Rattle.run_unroller.specs.Scripts.{entry};
ghost use Rattle.run_unroller.specs.internal.Extensions.{Extends, IsAfterStep};
ghost use Rattle.run_unroller.specs.internal.RunViews.{runs_of};

use crate::causes::{Cause, Grown};
use crate::merged_runs::MergedRuns;
use heyvl_acts::Typed;
use heyvl_num::Frac;
use run_machine::{Config, Decide, Stepped, step};
use std::alloc::{AllocError, Global};

/// Returns the list after one more step: the outcomes of each run, in order, with the product of
/// the weights, where equal runs are merged. A terminated run stays as it is.
pub(crate) fn after_step(
    alloc: Global,
    typed: &Typed,
    script: &[Decide],
    runs: MergedRuns,
) -> Result<Grown, AllocError>
    requires rules { MeetsAllRules typed.now }
    requires configs { Each (λ x. IsConfig (procedures_of typed.now) x.1)
        (runs_of runs.entries.entries) }
    requires rooms { Each (λ x. HasRoom x.1) (runs_of runs.entries.entries) }
    ensures { IfOk result (λ grown.
        IsAfterStep (procedures_of typed.now) script.now (runs_of runs.entries.entries) grown) }
{
    let mut next = MergedRuns::new(alloc);
    for (config, weight) in runs.entries {
        if let Some(cause) = follow_run(alloc, typed, script, &mut next, weight, config)? {
            return Ok(Grown::Stopped(cause));
        }
    }
    Ok(Grown::Runs(next))
}

/// Adds the outcomes of a run of this weight to `next`, or returns the cause that stops them.
fn follow_run(
    alloc: Global,
    typed: &Typed,
    script: &[Decide],
    next: &mut MergedRuns,
    weight: Frac,
    config: Config,
) -> Result<Option<Cause>, AllocError>
    requires rules { MeetsAllRules typed.now }
    requires config { IsConfig (procedures_of typed.now) (stored config) }
    requires room { HasRoom (stored config) }
    ensures { IfOk result (λ cause.
        Extends (runs_of next.old.entries.entries) (runs_of next.new.entries.entries)
        (brought (procedures_of typed.now) script.now config.items.items weight (stored config))
        (scaled weight (follow (procedures_of typed.now) script.now (stored config))) cause) }
{
    if config.items.is_empty() {
        return join_outcome(next, &weight, (Frac::one(), config));
    }
    match step(alloc, typed, &config, decision(script, config.made))? {
        Stepped::Bits => Ok(Some(Cause::Bits)),
        Stepped::Deep => Ok(Some(Cause::Deep)),
        Stepped::Next(outcomes) => join_all(next, &weight, outcomes),
    }
}

/// Returns the script's entry number `made`.
fn decision(script: &[Decide], made: u32) -> Option<&Decide>
    ensures { decision_of result ≡ entry script.now made }
{
    script.get(made as usize)
}

/// Adds outcomes of a run of this weight to `next`, or returns the cause that stops them.
fn join_all(
    next: &mut MergedRuns,
    weight: &Frac,
    outcomes: Vec<(Frac, Config)>,
) -> Result<Option<Cause>, AllocError>
    ensures { IfOk result (λ cause.
        Extends (runs_of next.old.entries.entries) (runs_of next.new.entries.entries)
        (map (Brought.joins weight.now) (stored_outcomes outcomes.items))
        (scaled weight.now (stored_outcomes outcomes.items)) cause) }
{
    for outcome in outcomes {
        if let Some(cause) = join_outcome(next, weight, outcome)? {
            return Ok(Some(cause));
        }
    }
    Ok(None)
}

/// Adds one outcome of a run of this weight to `next`, or returns the cause that stops it.
fn join_outcome(
    next: &mut MergedRuns,
    weight: &Frac,
    outcome: (Frac, Config),
) -> Result<Option<Cause>, AllocError>
    ensures { IfOk result (λ cause.
        Extends (runs_of next.old.entries.entries) (runs_of next.new.entries.entries)
        (Brought.joins weight.now (stored_outcome outcome) ∷ [])
        ((weight.now *ʳ outcome.0, stored outcome.1) ∷ []) cause) }
{
    match weight.mul(&outcome.0) {
        None => Ok(Some(Cause::Bits)),
        Some(product) => next.join(product, outcome.1),
    }
}
