//! The one loop of a proc with `@wlp`.

ghost use Rattle.heyvl_acts.proofs.exported.PlainActsAre.{head_of};
ghost use Rattle.heyvl_acts.specs.Acts.{Act as plain_act, Acts as plain_acts, TypedProcedure};
ghost use Rattle.heyvl_acts.specs.Acts.{acts_in, join, procedure_at};
ghost use Rattle.heyvl_acts.specs.Places.{in_order, inside};
ghost use Rattle.heyvl_acts.specs.PlainActs.{act_of, acts_of, procedure_of, procedures_of};
ghost use Rattle.heyvl_acts.specs.Program.{IsProgram};
ghost use Rattle.lower_goals.specs.internal.Shapes.{HasNoLoop, IsLoopIn, IsLoopOf, all_straight};
ghost use Rattle.std.specs.Prelude.{length, true, ◌&&◌, ◌<◌, ◌≡◌, ◌∷◌};

use heyvl_acts::{Act, LoopAct, TProc, Typed};
use proc_contracts::not_program;

/// A body with one loop: the acts before it, the loop, and the acts after it.
#[derive(Drop)]
pub(crate) struct LoopParts<'a> {
    pub(crate) front: &'a [Act],
    pub(crate) one: &'a LoopAct,
    pub(crate) behind: &'a [Act],
}

/// Returns the parts of the body of the procedure `p`, if it has `@wlp`, is a program, and has one
/// loop among the acts of its body, and no loop or call elsewhere. Returns `None` exactly if it is
/// no such procedure.
pub(crate) fn one_loop<'a>(typed: &'a Typed, p: u32) -> Option<LoopParts<'a>>
    requires there { p < length typed.now.procs.items }
    ensures { IsLoopOf (procedure_at (procedures_of typed.now) p) result }
{
    match not_program(typed, p) {
        Some(_) => None,
        None => weak_loop(&typed.procs[p as usize]),
    }
}

/// Returns the parts of the body of a program, if it has `@wlp` and one loop.
fn weak_loop<'a>(procedure: &'a TProc) -> Option<LoopParts<'a>>
    ensures { IsProgram (procedure_of procedure.now)
        → IsLoopOf (procedure_of procedure.now) result }
{
    if !procedure.weak {
        return None;
    }
    match &procedure.body {
        Some(acts) => loop_among(acts),
        None => None,
    }
}

/// Returns the parts of the acts of a body at its first loop, if there is one and no other loop or
/// call.
fn loop_among<'a>(acts: &'a [Act]) -> Option<LoopParts<'a>>
    ensures { (p : TypedProcedure) → acts_in p.body ≡ acts_of acts.now → p.weak ≡ true → IsProgram p
        → IsLoopOf p result }
{
    for place in 0..acts.len() {
        if let Some(one) = loop_in(&acts[place]) {
            return straight_parts(&acts[..place], one, &acts[place + 1..]);
        }
    }
    None
}

/// Returns the loop that the act is, if it is one.
fn loop_in(act: &Act) -> Option<&LoopAct>
    ensures { IsLoopIn (act_of act.now) result }
{
    match act {
        Act::Loop(one) => Some(one),
        Act::Call(_, _, _, _) => None,
        Act::Pick(_, _, _, _) => None,
        Act::If(_, _, _) => None,
        Act::Set(_, _, _) => None,
        Act::Draw(_, _, _) => None,
        Act::Toss(_, _, _) => None,
        Act::Any(_, _, _, _) => None,
        Act::Reward(_, _) => None,
        Act::Check(_, _, _) => None,
        Act::Validate(_, _) => None,
    }
}

/// Returns the parts, if none of them contains a loop or a call.
fn straight_parts<'a>(
    front: &'a [Act],
    one: &'a LoopAct,
    behind: &'a [Act],
) -> Option<LoopParts<'a>>
    ensures { (p : TypedProcedure)
        → acts_in p.body
        ≡ join (acts_of front.now)
        (plain_acts.next (plain_act.loop (head_of one.now) (acts_of one.now.body.items))
        (acts_of behind.now)) → HasNoLoop (acts_of front.now) → p.weak ≡ true → IsProgram p
        → IsLoopOf p result }
{
    if three_straight(front, &one.body, behind) {
        Some(LoopParts { front, one, behind })
    } else {
        None
    }
}

/// Returns whether none of three lists contains a loop or a call, also inside other acts.
fn three_straight(front: &[Act], body: &[Act], behind: &[Act]) -> bool
    ensures { result ≡ (all_straight (in_order (acts_of front.now))
        && (all_straight (in_order (acts_of body.now))
        && all_straight (in_order (acts_of behind.now)))) }
{
    are_straight(front) && are_straight(body) && are_straight(behind)
}

/// Returns whether none of the acts, or of the acts in them, is a loop or a call.
#[cycle(bending)]
fn are_straight(acts: &[Act]) -> bool
    ensures { result ≡ all_straight (in_order (acts_of acts.now)) }
{
    for act in acts {
        if !is_straight(act) {
            return false;
        }
    }
    true
}

/// Returns whether neither the act nor an act in it is a loop or a call.
#[cycle(bending)]
fn is_straight(act: &Act) -> bool
    ensures { result ≡ all_straight (act_of act.now ∷ inside (act_of act.now)) }
{
    match act {
        Act::Loop(_) => false,
        Act::Call(_, _, _, _) => false,
        Act::Pick(_, left, right, _) => are_straight(left) && are_straight(right),
        Act::If(arms, other, _) => {
            for arm in arms {
                if !are_straight(&arm.1) {
                    return false;
                }
            }
            are_straight(other)
        }
        Act::Set(_, _, _) => true,
        Act::Draw(_, _, _) => true,
        Act::Toss(_, _, _) => true,
        Act::Any(_, _, _, _) => true,
        Act::Reward(_, _) => true,
        Act::Check(_, _, _) => true,
        Act::Validate(_, _) => true,
    }
}
