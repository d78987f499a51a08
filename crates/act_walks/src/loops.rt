//! The loop with a given number.

ghost use Rattle.act_walks.specs.Lent.{lent_loop};
ghost use Rattle.act_walks.specs.Loops.{loop_in};
ghost use Rattle.heyvl_acts.specs.Acts.{acts_in};
ghost use Rattle.heyvl_acts.specs.Places.{in_order, inside};
ghost use Rattle.heyvl_acts.specs.PlainActs.{act_of, acts_of, procedure_of};
ghost use Rattle.std.specs.Prelude.{◌≡◌, ◌∷◌};

use heyvl_acts::{Act, LoopAct, TProc};

/// Returns the loop with the number `number` in the procedure's body, or `None` if there is none.
/// Nothing is allocated.
pub fn loop_of(procedure: &TProc, number: u32) -> Option<&LoopAct>
    ensures { lent_loop result
        ≡ loop_in number (in_order (acts_in (procedure_of procedure.now).body)) }
{
    match &procedure.body {
        Some(acts) => loop_among(acts, number),
        None => None,
    }
}

/// Returns the first loop with the number `number` among the acts and the acts in them.
#[cycle(finding)]
fn loop_among(acts: &[Act], number: u32) -> Option<&LoopAct>
    ensures { lent_loop result ≡ loop_in number (in_order (acts_of acts.now)) }
{
    for act in acts {
        if let Some(found) = loop_from(act, number) {
            return Some(found);
        }
    }
    None
}

/// Returns the first loop with the number `number` among the act and the acts in it.
#[cycle(finding)]
fn loop_from(act: &Act, number: u32) -> Option<&LoopAct>
    ensures { lent_loop result ≡ loop_in number (act_of act.now ∷ inside (act_of act.now)) }
{
    match act {
        Act::Loop(one) => {
            if one.number == number {
                Some(one)
            } else {
                loop_among(&one.body, number)
            }
        }
        Act::If(arms, other, _) => {
            for arm in arms {
                if let Some(found) = loop_among(&arm.1, number) {
                    return Some(found);
                }
            }
            loop_among(other, number)
        }
        Act::Pick(_, left, right, _) => match loop_among(left, number) {
            Some(found) => Some(found),
            None => loop_among(right, number),
        },
        _ => None,
    }
}
