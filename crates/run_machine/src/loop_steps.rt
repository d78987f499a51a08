//! The test of a loop.

ghost use Rattle.std.specs.Prelude.{◌≡◌, ◌==◌, ◌<◌, ◌+◌, ◌^◌, ℕ, IfOk, get_or, is_some, length};
ghost use Rattle.std.specs.Prelude.{if◌then◌else◌};
ghost use Rattle.heylo_formula.specs.PlainTrees.{cond_of};
ghost use Rattle.heyvl_acts.specs.Places.{in_order};
ghost use Rattle.heyvl_acts.specs.PlainActs.{acts_of};
ghost use Rattle.quant_algebra.specs.ExactMeaning.{exact_truth};
ghost use Rattle.run_machine.specs.Names.{stored};
ghost use Rattle.run_machine.specs.Replies.{reply_of, replied, surely};
ghost use Rattle.run_machine.specs.StoredMoves.{more_turns, tested, turned_at};

use crate::blocks::push_block;
use crate::configurations::{Config, Item, Stepped};
use crate::copies::{rest_of, with_items};
use crate::limits::for_sure;
use crate::plain_steps::pass_step;
use heyvl_acts::LoopAct;
use quant_algebra::{Held, holds_at};
use std::alloc::{AllocError, Global};

/// Takes the step of the test of the loop at `place`.
pub(crate) fn test_step(
    alloc: Global,
    config: &Config,
    p: u32,
    place: u32,
    one: &LoopAct,
) -> Result<Stepped, AllocError>
    requires small { place + 1 + length (in_order (acts_of one.now.body.items)) < 2 ^ 31 }
    requires few { (k : ℕ) → get_or config.now.turns.items k 0 < 2 ^ 31 }
    ensures { IfOk result (λ stepped. reply_of stepped
        ≡ replied (is_some (exact_truth (cond_of one.now.guard) config.now.state.items))
        (surely (tested (stored config.now) p place (cond_of one.now.guard) one.now.number
        (acts_of one.now.body.items)))) }
{
    match holds_at(&one.guard, &config.state) {
        Held::Bits => Ok(Stepped::Bits),
        Held::No => pass_step(alloc, config),
        Held::Yes => {
            let next = turned(alloc, config, p, place, one)?;
            for_sure(alloc, next)
        }
    }
}

/// Returns the configuration in which the loop's body comes before its next test. The iteration
/// counts only if the loop's procedure is the one that was started.
fn turned(
    alloc: Global,
    config: &Config,
    p: u32,
    place: u32,
    one: &LoopAct,
) -> Result<Config, AllocError>
    requires small { place + 1 + length (in_order (acts_of one.now.body.items)) < 2 ^ 31 }
    requires few { (k : ℕ) → get_or config.now.turns.items k 0 < 2 ^ 31 }
    ensures { IfOk result (λ next. stored next
        ≡ turned_at (stored config.now) p place one.now.number (acts_of one.now.body.items)) }
{
    let turns = turns_after(alloc, config, p, one.number)?;
    let mut items = Vec::new(alloc);
    push_block(&mut items, p, place + 1, &one.body)?;
    items.push(Item::Turn(p, place))?;
    items.extend_from_slice(rest_of(config))?;
    let mut next = with_items(alloc, config, items)?;
    next.turns = turns;
    Ok(next)
}

/// Returns the counts of iterations after one more iteration of the loop `number` of the procedure
/// `p`.
fn turns_after(alloc: Global, config: &Config, p: u32, number: u32) -> Result<Vec<u64>, AllocError>
    requires { (k : ℕ) → get_or config.now.turns.items k 0 < 2 ^ 31 }
    ensures { IfOk result (λ turns. turns.items
        ≡ (if p == config.now.proc then more_turns number config.now.turns.items
        else config.now.turns.items)) }
{
    let mut turns = Vec::from_slice(alloc, &config.turns)?;
    if p == config.proc {
        count_turn(&mut turns, number);
    }
    Ok(turns)
}

/// Counts one more iteration of the loop `number`. The loops are numbered from 1.
fn count_turn(turns: &mut Vec<u64>, number: u32)
    requires { (k : ℕ) → get_or turns.old.items k 0 < 2 ^ 31 }
    ensures { turns.new.items ≡ more_turns number turns.old.items }
{
    if number == 0 {
        return;
    }
    if let Some(turn) = turns.get_mut((number - 1) as usize) {
        *turn += 1;
    }
}
