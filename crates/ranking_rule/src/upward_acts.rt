//! Acts as a ranking reads them.

ghost use Rattle.heyvl_acts.specs.Acts.{Acts as plain_acts, join};
ghost use Rattle.heyvl_acts.specs.PlainActs.{act_of, acts_of};
ghost use Rattle.heyvl_acts.specs.Upward.{upward, upward_next};
ghost use Rattle.std.specs.Prelude.{IfOk, OnOk, ◌≡◌};

use heyvl_acts::Act;
use std::alloc::{AllocError, Global};

/// Returns copies of the acts without rewards, in which each arbitrary value and each pick goes
/// upward.
#[cycle(raising)]
pub fn upward(alloc: Global, acts: &[Act]) -> Result<Vec<Act>, AllocError>
    ensures { IfOk result (λ raised. acts_of raised.items ≡ upward (acts_of acts.now)) }
{
    let mut raised = Vec::new(alloc);
    for act in acts {
        add_upward(alloc, &mut raised, act)?;
    }
    Ok(raised)
}

/// Appends the act to `raised`, without rewards and upward.
#[cycle(raising)]
fn add_upward(alloc: Global, raised: &mut Vec<Act>, act: &Act) -> Result<(), AllocError>
    ensures { OnOk result (acts_of raised.new.items
        ≡ join (acts_of raised.old.items) (upward_next (act_of act.now) plain_acts.done)) }
{
    match act {
        Act::Reward(_, _) => Ok(()),
        Act::Any(x, _, ty, span) => {
            raised.push(Act::Any(*x, true, *ty, *span))?;
            Ok(())
        }
        Act::Pick(_, left, right, span) => {
            let first = upward(alloc, left)?;
            let second = upward(alloc, right)?;
            raised.push(Act::Pick(true, first, second, *span))?;
            Ok(())
        }
        Act::If(arms, other, span) => {
            let mut blocks = Vec::new(alloc);
            for arm in arms {
                let guard = arm.0.copy(alloc)?;
                blocks.push((guard, upward(alloc, &arm.1)?))?;
            }
            let last = upward(alloc, other)?;
            raised.push(Act::If(blocks, last, *span))?;
            Ok(())
        }
        Act::Set(_, _, _) => add_copy(alloc, raised, act),
        Act::Draw(_, _, _) => add_copy(alloc, raised, act),
        Act::Toss(_, _, _) => add_copy(alloc, raised, act),
        Act::Check(_, _, _) => add_copy(alloc, raised, act),
        Act::Validate(_, _) => add_copy(alloc, raised, act),
        Act::Loop(_) => add_copy(alloc, raised, act),
        Act::Call(_, _, _, _) => add_copy(alloc, raised, act),
    }
}

/// Appends a copy of the act.
fn add_copy(alloc: Global, raised: &mut Vec<Act>, act: &Act) -> Result<(), AllocError>
    ensures { OnOk result (acts_of raised.new.items
        ≡ join (acts_of raised.old.items) (plain_acts.next (act_of act.now) plain_acts.done)) }
{
    raised.push(act.copy(alloc)?)?;
    Ok(())
}
