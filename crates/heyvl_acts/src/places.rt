//! The act at a place: its index in the text of its procedure's body, where an act precedes the
//! acts in it.

ghost use Rattle.heyvl_acts.specs.internal.PlaceWalks.{Finds};
ghost use Rattle.heyvl_acts.specs.Places.{act_named, held, in_order, inside};
ghost use Rattle.heyvl_acts.specs.PlainActs.{act_of, acts_of, procedures_of};
ghost use Rattle.std.specs.Prelude.{◌≡◌, ◌∷◌};

use crate::acts::Act;
use crate::typed_trees::Typed;

/// Returns the act at the index `place` of the body of procedure `p`, or `None` if there is no such
/// procedure or act. Nothing is allocated.
pub fn act_at(typed: &Typed, p: u32, place: u32) -> Option<&Act>
    ensures { held result ≡ act_named (procedures_of typed.now) p place }
{
    let procedure = typed.procs.get(p as usize)?;
    match &procedure.body {
        None => None,
        Some(acts) => among(acts, place).ok(),
    }
}

/// Returns the act at a place among the acts and the acts in them, or the number of acts by which
/// the place is beyond them.
#[cycle(finding)]
fn among(acts: &[Act], place: u32) -> Result<&Act, u32>
    ensures { Finds (in_order (acts_of acts.now)) place result }
{
    let mut left = place;
    for act in acts {
        match from_act(act, left) {
            Ok(found) => return Ok(found),
            Err(rest) => left = rest,
        }
    }
    Err(left)
}

/// Returns the act at a place among the act and the acts in it, or by how many acts the place is
/// beyond them.
#[cycle(finding)]
fn from_act(act: &Act, place: u32) -> Result<&Act, u32>
    ensures { Finds (act_of act.now ∷ inside (act_of act.now)) place result }
{
    if place == 0 {
        return Ok(act);
    }
    within(act, place - 1)
}

/// Returns the act at a place among the acts in an act, or by how many acts the place is beyond
/// them.
#[cycle(finding)]
fn within(act: &Act, place: u32) -> Result<&Act, u32>
    ensures { Finds (inside (act_of act.now)) place result }
{
    match act {
        Act::If(arms, other, _) => {
            let mut left = place;
            for arm in arms {
                match among(&arm.1, left) {
                    Ok(found) => return Ok(found),
                    Err(rest) => left = rest,
                }
            }
            among(other, left)
        }
        Act::Pick(_, first, second, _) => match among(first, place) {
            Ok(found) => Ok(found),
            Err(left) => among(second, left),
        },
        Act::Loop(one) => among(&one.body, place),
        _ => Err(place),
    }
}
