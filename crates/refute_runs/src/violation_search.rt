//! The search for a violation of a coproc's pre by the runs of a script.

ghost use Rattle.std.specs.Prelude.{◌≡◌, ◌≤◌, IfOk, option_map, true};
ghost use Rattle.heyvl_acts.specs.Acts.{procedure_at};
ghost use Rattle.heyvl_acts.specs.PlainActs.{procedures_of};
ghost use Rattle.heyvl_acts.specs.Rules.{MeetsAllRules};
ghost use Rattle.heyvl_num.specs.ExtendedNumbers.{value_of};
ghost use Rattle.quant_algebra.specs.ExactMeaning.{exact_value};
ghost use Rattle.refute_runs.specs.RefutedAnswers.{IsRefutedAnswer};
ghost use Rattle.refute_runs.specs.SumsAfter.{unrolled_in};
ghost use Rattle.refute_runs.specs.Violations.{NumbersAreOfRuns, ViolationIsOfRuns};
ghost use Rattle.refute_runs.specs.internal.Probes.{IsPossible};
ghost use Rattle.run_machine.specs.Bound.{IsState};
ghost use Rattle.run_machine.specs.ConfigConditions.{ReachesPrograms};

use crate::answers::Refuted;
use crate::bisection::search;
use heylo_formula::Val;
use heyvl_acts::Typed;
use heyvl_num::Ext;
use quant_algebra::{At, exact_values_are_meant, value_at};
use run_laws::violations_refute;
use run_machine::{Decide, begin};
use run_unroller::{Unrolled, scripted_sums_grow, unrolled_sums_are_meant};
use std::alloc::{AllocError, Global};

/// Searches for the least number of steps, at most `n`, after which the sum over the runs of a
/// coproc, from a state and under a script, is above its pre in this state. Returns
///
/// - `Violation` if there is one. Then the procedure has no bound, neither in this file nor in one
///   that differs only in the rules of loops;
/// - `Within` if the sum after `n` steps is not above the pre;
/// - `Stopped` if a step is stopped before this is known, as `unroll` reports, or if a number
///   overflows: in adding the sums, in the pre, in the sum of the reward and the post, or in its
///   comparison with the pre. A pre with a binder, or one that overflows, is answered so at once.
pub fn refute(
    alloc: Global,
    typed: &Typed,
    p: u32,
    state: &[Val],
    script: &[Decide],
    n: u32,
) -> Result<Refuted, AllocError>
    requires rules { MeetsAllRules typed.now }
    requires programs { ReachesPrograms (procedures_of typed.now) p }
    requires coproc { (procedure_at (procedures_of typed.now) p).co ≡ true }
    requires state { IsState (procedure_at (procedures_of typed.now) p) state.now }
    requires steps { n ≤ 10000 }
    ensures answer { IfOk result
        (λ answer. IsRefutedAnswer (procedures_of typed.now) p state.now script.now n answer) }
    ensures violation { IfOk result
        (λ answer. ViolationIsOfRuns (procedures_of typed.now) p state.now script.now answer) }
    ensures numbers { IfOk result
        (λ answer. NumbersAreOfRuns (procedures_of typed.now) p state.now script.now n answer) }
{
    exact_values_are_meant();
    scripted_sums_grow();
    unrolled_sums_are_meant();
    violations_refute();
    answer(alloc, typed, p, state, script, n)
}

/// Returns an allowed answer.
fn answer(
    alloc: Global,
    typed: &Typed,
    p: u32,
    state: &[Val],
    script: &[Decide],
    n: u32,
) -> Result<Refuted, AllocError>
    requires rules { MeetsAllRules typed.now }
    requires programs { ReachesPrograms (procedures_of typed.now) p }
    requires state { IsState (procedure_at (procedures_of typed.now) p) state.now }
    requires steps { n ≤ 10000 }
    ensures { IfOk result (λ answer.
        IsPossible (unrolled_in (procedures_of typed.now) p state.now script.now)
        (exact_value (procedure_at (procedures_of typed.now) p).pre state.now) n answer) }
{
    let Some(pre) = pre_at(typed, p, state) else {
        return Ok(Refuted::Stopped(0, Unrolled::Bits(1)));
    };
    let start = begin(alloc, typed, p, state)?;
    search(alloc, typed, p, &start, script, &pre, n)
}

/// Returns the value of the procedure's pre in a state, or 0 if there is no procedure.
fn pre_at(typed: &Typed, p: u32, state: &[Val]) -> Option<Ext>
    ensures { option_map value_of result
        ≡ exact_value (procedure_at (procedures_of typed.now) p).pre state.now }
{
    match typed.procs.get(p as usize) {
        None => Some(Ext::zero()),
        Some(procedure) => match value_at(&procedure.pre, state) {
            At::Value(value) => Some(value),
            At::Bits => None,
        },
    }
}
