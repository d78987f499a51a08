//! The number of statements in the encoding of acts, counted without the encoding. Counts above
//! 1,024, the limit of a procedure, are 1,025.

ghost use Rattle.heyvl_acts.specs.Count.{count_of, count_of_act, count_of_copies};
ghost use Rattle.heyvl_acts.specs.PlainActs.{act_of, acts_of, loop_of};
ghost use Rattle.std.specs.Prelude.{◌≡◌, ◌+◌, min};

use crate::acts::{Act, LoopAct};
use crate::targets::modified;

const CEILING: usize = 1025;

/// Returns the count, or 1,025 if it is larger.
fn capped(count: usize) -> usize
    ensures { result ≡ min 1025 count }
{
    count.min(CEILING)
}

/// Returns the sum of two counts.
fn both(left: usize, right: usize) -> usize
    ensures { (m : _) (n : _) → left ≡ min 1025 m → right ≡ min 1025 n → result ≡ min 1025 (m + n) }
{
    capped(left.saturating_add(right))
}

/// Returns the count of `k` copies of a body, with their ifs and checks.
fn copies(k: u32, body: usize) -> usize
    ensures { (n : _) → body ≡ min 1025 n → result ≡ min 1025 (count_of_copies k n) }
{
    capped((k as usize).saturating_mul(body.saturating_add(2)))
}

/// Returns the number of statements in the encoding of the acts, or 1,025 if it is larger.
#[cycle(counting)]
pub fn count(acts: &[Act]) -> usize
    ensures { result ≡ min 1025 (count_of (acts_of acts.now)) }
{
    let mut total = 0;
    for act in acts {
        if total >= CEILING {
            return CEILING;
        }
        total = both(total, count_of_act(act));
    }
    total
}

/// Returns the number of statements in the encoding of one act, or 1,025 if it is larger.
#[cycle(counting)]
fn count_of_act(act: &Act) -> usize
    ensures { result ≡ min 1025 (count_of_act (act_of act.now)) }
{
    match act {
        Act::Set(_, _, _) => 1,
        Act::Draw(_, _, _) => 1,
        Act::Toss(_, _, _) => 1,
        Act::Any(_, _, _, _) => 1,
        Act::Reward(_, _) => 1,
        Act::If(arms, other, _) => {
            let mut total = count(other);
            for arm in arms {
                if total >= CEILING {
                    return CEILING;
                }
                total = both(total, both(1, count(&arm.1)));
            }
            total
        }
        Act::Pick(_, first, second, _) => both(1, both(count(first), count(second))),
        Act::Check(_, _, _) => 1,
        Act::Validate(_, _) => 1,
        Act::Loop(one) => count_of_loop(one),
        Act::Call(targets, _, arguments, _) => {
            let targets = capped(targets.len());
            both(3, both(capped(arguments.len()), both(targets, targets)))
        }
    }
}

/// Returns the number of statements in the encoding of a loop, or 1,025 if it is larger. The
/// modified variables are counted only if the copies alone do not exceed the limit.
#[cycle(counting)]
fn count_of_loop(one: &LoopAct) -> usize
    ensures { result ≡ min 1025 (count_of_act (loop_of one.now)) }
{
    let copies = both(4, copies(one.k, count(&one.body)));
    if copies >= CEILING {
        return CEILING;
    }
    both(copies, capped(modified(&one.scope, &one.body)))
}
