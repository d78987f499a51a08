//! The first configuration of a run.

ghost use Rattle.std.specs.Prelude.{◌≡◌, ◌++◌, IfOk, OnOk, replicate};
ghost use Rattle.heyvl_acts.specs.Acts.{acts_in, procedure_at};
ghost use Rattle.heyvl_acts.specs.PlainActs.{procedures_of};
ghost use Rattle.run_machine.specs.Bound.{IsState};
ghost use Rattle.run_machine.specs.ConfigConditions.{IsConfig, ReachesPrograms};
ghost use Rattle.run_machine.specs.Configurations.{begin as begin_of};
ghost use Rattle.heyvl_acts.specs.Rules.{HasFewActs, MeetsAllRules};
ghost use Rattle.run_machine.specs.Names.{stored, config_of, numbered};
ghost use Rattle.run_machine.specs.StoredStep.{stored_begin};

use crate::blocks::push_block;
use crate::configurations::{Config, Item};
use heylo_formula::Val;
use heyvl_acts::Typed;
use heyvl_num::{Ext, Frac};
use std::alloc::{AllocError, Global};

/// Returns the first configuration of the body of the procedure `p` in a state, with no decision
/// made. If there is no such procedure, or it has no body, the configuration has terminated.
pub fn begin(alloc: Global, typed: &Typed, p: u32, state: &[Val]) -> Result<Config, AllocError>
    requires { MeetsAllRules typed.now }
    ensures stored { IfOk result
        (λ first. stored first ≡ stored_begin (procedures_of typed.now) p state.now) }
    ensures first { IfOk result (λ first. config_of (procedures_of typed.now) (stored first)
        ≡ begin_of (procedures_of typed.now) p state.now) }
    ensures config { ReachesPrograms (procedures_of typed.now) p
        → IsState (procedure_at (procedures_of typed.now) p) state.now
        → IfOk result (λ first. IsConfig (procedures_of typed.now) (stored first)) }
{
    let mut items = Vec::new(alloc);
    push_body(&mut items, typed, p)?;
    Ok(Config {
        proc: p,
        items,
        state: Vec::from_slice(alloc, state)?,
        frames: Vec::new(alloc),
        reward: Ext::Fin(Frac::zero()),
        turns: no_turns(alloc, loops_of(typed, p))?,
        made: 0,
    })
}

/// Appends the items of the body of the procedure `p`.
pub(crate) fn push_body(items: &mut Vec<Item>, typed: &Typed, p: u32) -> Result<(), AllocError>
    requires { HasFewActs (procedures_of typed.now) }
    ensures { OnOk result (items.new.items ≡ items.old.items
        ++ numbered p 0 (acts_in (procedure_at (procedures_of typed.now) p).body)) }
{
    match typed.procs.get(p as usize) {
        None => Ok(()),
        Some(procedure) => match &procedure.body {
            None => Ok(()),
            Some(acts) => push_block(items, p, 0, acts),
        },
    }
}

/// Returns the number of loops of the procedure `p`, or 0 if there is none.
fn loops_of(typed: &Typed, p: u32) -> u32
    ensures { result ≡ (procedure_at (procedures_of typed.now) p).loops }
{
    match typed.procs.get(p as usize) {
        None => 0,
        Some(procedure) => procedure.loops,
    }
}

/// Returns one 0 for each loop.
fn no_turns(alloc: Global, loops: u32) -> Result<Vec<u64>, AllocError>
    ensures { IfOk result (λ turns. turns.items ≡ replicate loops 0) }
{
    let mut turns = Vec::new(alloc);
    for _ in 0..loops {
        turns.push(0)?;
    }
    Ok(turns)
}
