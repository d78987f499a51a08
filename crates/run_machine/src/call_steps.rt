//! Calls and returns.

ghost use Rattle.std.specs.Prelude.{◌≡◌, ◌<◌, ◌≤◌, ◌+◌, ◌++◌, ◌∷◌, [], List, IfOk, OnOk, drop};
ghost use Rattle.std.specs.Prelude.{length, map, true};
ghost use Rattle.heylo_formula.specs.State.{default as default_of, environment};
ghost use Rattle.heyvl_acts.specs.Acts.{procedure_at, type_list};
ghost use Rattle.heyvl_acts.specs.PlainActs.{procedure_of, procedures_of, terms_of, variable_of};
ghost use Rattle.heyvl_acts.specs.Rules.{Each, HasFewActs};
ghost use Rattle.run_machine.specs.BoundedStep.{terms_fit};
ghost use Rattle.run_machine.specs.Configurations.{evaluate, outputs_of, set_all};
ghost use Rattle.run_machine.specs.Names.{Lists, lists_of, stored};
ghost use Rattle.run_machine.specs.Replies.{reply_of, replied, surely};
ghost use Rattle.run_machine.specs.StoredMoves.{behind, entered, out_items, resumed};
ghost use Rattle.run_machine.specs.internal.Counts.{IsSmall};

use crate::configurations::{Config, Frame, Item, Stepped};
use crate::copies::{copy_frames, rest_of};
use crate::evaluation::{assign, terms_at};
use crate::limits::for_sure;
use crate::plain_steps::pass_step;
use crate::starts::push_body;
use heylo_formula::{Term, Val};
use heyvl_acts::{TProc, Typed};
use std::alloc::{AllocError, Global};

/// Takes the step of the call at `place` of the procedure `p`.
pub(crate) fn call_step(
    alloc: Global,
    typed: &Typed,
    config: &Config,
    p: u32,
    place: u32,
    q: u32,
    terms: &[Term],
) -> Result<Stepped, AllocError>
    requires there { q < length typed.now.procs.items }
    requires few { HasFewActs (procedures_of typed.now) }
    requires small { Each IsSmall typed.now.procs.items }
    ensures { IfOk result (λ stepped. reply_of stepped
        ≡ replied (terms_fit (terms_of terms.now) config.now.state.items)
        (surely (entered (stored config.now) p place q (procedure_at (procedures_of typed.now) q)
        (evaluate (terms_of terms.now) (environment config.now.state.items))))) }
{
    match terms_at(alloc, terms, &config.state)? {
        None => Ok(Stepped::Bits),
        Some(values) => {
            let next = enter(alloc, typed, config, p, place, q, values)?;
            for_sure(alloc, next)
        }
    }
}

/// Returns the configuration in which the procedure `q` starts with the values of its inputs.
fn enter(
    alloc: Global,
    typed: &Typed,
    config: &Config,
    p: u32,
    place: u32,
    q: u32,
    values: Vec<Val>,
) -> Result<Config, AllocError>
    requires there { q < length typed.now.procs.items }
    requires few { HasFewActs (procedures_of typed.now) }
    requires small { Each IsSmall typed.now.procs.items }
    ensures { IfOk result (λ next. stored next
        ≡ entered (stored config.now) p place q
        (procedure_at (procedures_of typed.now) q) values.items) }
{
    let callee = &typed.procs[q as usize];
    let mut items = Vec::new(alloc);
    push_outs(&mut items, q, callee)?;
    push_body(&mut items, typed, q)?;
    items.push(Item::Back(p, place))?;
    let state = first_state(callee, values)?;
    let mut frames = copy_frames(alloc, &config.frames)?;
    frames.push(waiting(alloc, config)?)?;
    Ok(Config {
        proc: config.proc,
        items,
        state,
        frames,
        reward: config.reward,
        turns: Vec::from_slice(alloc, &config.turns)?,
        made: config.made,
    })
}

/// Returns the frame of the running procedure, which waits from now on: its items after the first,
/// and its state.
fn waiting(alloc: Global, config: &Config) -> Result<Frame, AllocError>
    ensures { IfOk result (λ frame. lists_of frame
        ≡ (behind (stored config.now), config.now.state.items)) }
{
    Ok(Frame {
        items: Vec::from_slice(alloc, rest_of(config))?,
        state: Vec::from_slice(alloc, &config.state)?,
    })
}

/// Returns the first state of a called procedure: the inputs have these values, every other
/// variable is false or 0.
fn first_state(callee: &TProc, values: Vec<Val>) -> Result<Vec<Val>, AllocError>
    requires { IsSmall callee.now }
    ensures { IfOk result (λ state. state.items ≡ values.items
        ++ map default_of
        (type_list (map variable_of (drop callee.now.inputs callee.now.vars.items)))) }
{
    let mut state = values;
    for variable in &callee.vars[callee.inputs as usize..] {
        state.push(variable.ty.default())?;
    }
    Ok(state)
}

/// Appends one item for each output of the called procedure `q`.
fn push_outs(items: &mut Vec<Item>, q: u32, callee: &TProc) -> Result<(), AllocError>
    requires { IsSmall callee.now }
    ensures { OnOk result (items.new.items ≡ items.old.items
        ++ out_items q callee.now.inputs callee.now.outputs) }
{
    for x in callee.inputs..callee.inputs + callee.outputs {
        items.push(Item::Out(q, x))?;
    }
    Ok(())
}

/// Takes the step of the return from a call of the procedure `q` with these targets.
pub(crate) fn back_step(
    alloc: Global,
    typed: &Typed,
    config: &Config,
    targets: &[u32],
    q: u32,
) -> Result<Stepped, AllocError>
    requires there { q < length typed.now.procs.items }
    requires small { Each IsSmall typed.now.procs.items }
    requires state { length (procedure_at (procedures_of typed.now) q).inputs
        + length (procedure_at (procedures_of typed.now) q).outputs
        ≤ length config.now.state.items }
    ensures { IfOk result (λ stepped. (fs : List Lists) (f : Lists)
        → map lists_of config.now.frames.items ≡ fs ++ (f ∷ [])
        → reply_of stepped
        ≡ replied true
        (surely (resumed (stored config.now) targets.now
        (procedure_at (procedures_of typed.now) q) fs f))) }
{
    let mut frames = copy_frames(alloc, &config.frames)?;
    match frames.pop() {
        None => pass_step(alloc, config),
        Some(frame) => {
            let mut state = frame.state;
            take_outputs(&mut state, &typed.procs[q as usize], targets, &config.state);
            let next = Config {
                proc: config.proc,
                items: frame.items,
                state,
                frames,
                reward: config.reward,
                turns: Vec::from_slice(alloc, &config.turns)?,
                made: config.made,
            };
            for_sure(alloc, next)
        }
    }
}

/// Assigns the outputs in the callee's state `last` to the targets.
fn take_outputs(state: &mut Vec<Val>, callee: &TProc, targets: &[u32], last: &[Val])
    requires small { IsSmall callee.now }
    requires long { callee.now.inputs + callee.now.outputs ≤ length last.now }
    ensures { state.new.items
        ≡ set_all targets.now (outputs_of (procedure_of callee.now) last.now) state.old.items }
{
    let first = callee.inputs as usize;
    let end = (callee.inputs + callee.outputs) as usize;
    assign_all(state, targets, &last[first..end]);
}

/// Assigns each value to its variable, in order.
fn assign_all(state: &mut Vec<Val>, targets: &[u32], values: &[Val])
    ensures { state.new.items ≡ set_all targets.now values.now state.old.items }
{
    let mut left = values;
    for target in targets {
        match left.split_first() {
            None => return,
            Some((value, rest)) => {
                assign(state, *target, *value);
                left = rest;
            }
        }
    }
}
