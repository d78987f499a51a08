//! Items for the acts of a block, by their places.

ghost use Rattle.std.specs.Prelude.{◌≡◌, ◌+◌, ◌++◌, ◌<◌, ◌^◌, length, OnOk};
ghost use Rattle.heyvl_acts.specs.PlainActs.{act_of, acts_of};
ghost use Rattle.heyvl_acts.specs.Places.{in_order, inside};
ghost use Rattle.run_machine.specs.Names.{numbered};

use crate::configurations::Item;
use heyvl_acts::Act;
use std::alloc::AllocError;

/// Returns the number of acts in a block, with the acts in them, up to the largest u32.
#[cycle(counting)]
pub(crate) fn size(acts: &[Act]) -> u32
    ensures { length (in_order (acts_of acts.now)) < 2 ^ 31
        → result ≡ length (in_order (acts_of acts.now)) }
{
    let mut total: u32 = 0;
    for act in acts {
        total = total.saturating_add(1).saturating_add(inside_size(act));
    }
    total
}

/// Returns the number of acts in an act, up to the largest u32.
#[cycle(counting)]
fn inside_size(act: &Act) -> u32
    ensures { length (inside (act_of act.now)) < 2 ^ 31
        → result ≡ length (inside (act_of act.now)) }
{
    match act {
        Act::If(arms, other, _) => {
            let mut total: u32 = size(other);
            for arm in arms {
                total = total.saturating_add(size(&arm.1));
            }
            total
        }
        Act::Pick(_, left, right, _) => size(left).saturating_add(size(right)),
        Act::Loop(one) => size(&one.body),
        _ => 0,
    }
}

/// Appends the items of a block. `place` is the place of its first act.
pub(crate) fn push_block(
    items: &mut Vec<Item>,
    p: u32,
    place: u32,
    acts: &[Act],
) -> Result<(), AllocError>
    requires { place + length (in_order (acts_of acts.now)) < 2 ^ 31 }
    ensures { OnOk result (items.new.items ≡ items.old.items
        ++ numbered p place (acts_of acts.now)) }
{
    let mut at = place;
    for act in acts {
        items.push(Item::Do(p, at))?;
        at += 1 + inside_size(act);
    }
    Ok(())
}
