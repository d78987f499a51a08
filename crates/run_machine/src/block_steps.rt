//! Steps that put the acts of a block before the other items.

ghost use Rattle.std.specs.Prelude.{◌≡◌, ◌<◌, ◌+◌, ◌^◌, IfOk, length, true, if◌then◌else◌};
ghost use Rattle.heylo_formula.specs.State.{environment};
ghost use Rattle.heyvl_acts.specs.Matching.{taken};
ghost use Rattle.heyvl_acts.specs.Places.{in_order, inside_arms};
ghost use Rattle.heyvl_acts.specs.PlainActs.{acts_of, arms_of};
ghost use Rattle.run_machine.specs.BoundedStep.{guards_fit};
ghost use Rattle.run_machine.specs.Names.{stored, decision_of};
ghost use Rattle.run_machine.specs.Step.{side_of};
ghost use Rattle.run_machine.specs.Replies.{reply_of, replied, surely};
ghost use Rattle.run_machine.specs.StoredMoves.{asked, opened, taken_place};

use crate::blocks::{push_block, size};
use crate::configurations::{Config, Decide, Stepped};
use crate::copies::{rest_of, with_items};
use crate::limits::for_sure;
use heylo_formula::Cond;
use heyvl_acts::Act;
use quant_algebra::{Held, holds_at};
use std::alloc::{AllocError, Global};

/// Returns `config` with the items of `acts` instead of its first item. `place` is the place of the
/// first act.
fn with_block(
    alloc: Global,
    config: &Config,
    p: u32,
    place: u32,
    acts: &[Act],
) -> Result<Config, AllocError>
    requires { place + length (in_order (acts_of acts.now)) < 2 ^ 31 }
    ensures { IfOk result (λ next. stored next
        ≡ opened (stored config.now) p place (acts_of acts.now)) }
{
    let mut items = Vec::new(alloc);
    push_block(&mut items, p, place, acts)?;
    items.extend_from_slice(rest_of(config))?;
    with_items(alloc, config, items)
}

/// Takes the step of an if: the block of the first arm whose guard holds, otherwise the last block,
/// comes first. `place` is the place of the first block.
pub(crate) fn if_step(
    alloc: Global,
    config: &Config,
    p: u32,
    place: u32,
    arms: &[(Cond, Vec<Act>)],
    other: &[Act],
) -> Result<Stepped, AllocError>
    requires { place + length (inside_arms (arms_of arms.now))
        + length (in_order (acts_of other.now)) < 2 ^ 31 }
    ensures { IfOk result (λ stepped. reply_of stepped
        ≡ replied (guards_fit (arms_of arms.now) config.now.state.items)
        (surely (opened (stored config.now) p
        (taken_place place (arms_of arms.now) (environment config.now.state.items))
        (taken (arms_of arms.now) (acts_of other.now) (environment config.now.state.items))))) }
{
    let mut at = place;
    for arm in arms {
        match holds_at(&arm.0, &config.state) {
            Held::Bits => return Ok(Stepped::Bits),
            Held::Yes => {
                let next = with_block(alloc, config, p, at, &arm.1)?;
                return for_sure(alloc, next);
            }
            Held::No => at += size(&arm.1),
        }
    }
    let next = with_block(alloc, config, p, at, other)?;
    for_sure(alloc, next)
}

/// Takes the step of a pick. `place` is the place of the left block.
pub(crate) fn pick_step(
    alloc: Global,
    config: &Config,
    p: u32,
    place: u32,
    left: &[Act],
    right: &[Act],
    decision: Option<&Decide>,
) -> Result<Stepped, AllocError>
    requires few { config.now.made < 2 ^ 31 }
    requires small { place + length (in_order (acts_of left.now))
        + length (in_order (acts_of right.now)) < 2 ^ 31 }
    ensures { IfOk result (λ stepped. reply_of stepped
        ≡ replied true
        (surely (asked (if side_of (decision_of decision.entry)
        then opened (stored config.now) p place (acts_of left.now)
        else opened (stored config.now) p (place + length (in_order (acts_of left.now)))
        (acts_of right.now))))) }
{
    let mut next = if goes_left(decision) {
        with_block(alloc, config, p, place, left)?
    } else {
        with_block(alloc, config, p, place + size(left), right)?
    };
    next.made += 1;
    for_sure(alloc, next)
}

/// Returns whether the pick goes left, as it does unless the right side is decided.
fn goes_left(decision: Option<&Decide>) -> bool
    ensures { result ≡ side_of (decision_of decision.entry) }
{
    match decision {
        None => true,
        Some(Decide::Left) => true,
        Some(Decide::Right) => false,
        Some(Decide::Give(_)) => true,
    }
}
