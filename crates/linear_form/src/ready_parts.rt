//! Partial evaluation of a goal: parts that ask no comparison are computed in advance.

ghost use Rattle.std.specs.Prelude.{◌≡◌, IfOk, IfSome, IsTrue, map};
ghost use Rattle.std.specs.Rc.{rc_value};
ghost use Rattle.heylo_formula.specs.Goals.{goal_of};
ghost use Rattle.linear_form.specs.internal.GoalParts.{AreParts, Compares, IsGoalPart, IsOver};
ghost use Rattle.linear_form.specs.internal.GoalParts.{IsReadyAs, TellsAtOnce};
ghost use Rattle.linear_form.specs.internal.LastingTrees.{Lasts};
ghost use Rattle.linear_form.specs.internal.Parts.{asked_by_work, IsReady, IsReadyWork};
ghost use Rattle.linear_form.specs.internal.PlainParts.{outcome_of, part_of, work_of};

use crate::cursor::Stop;
use crate::node_work::{part_at, question, unsure, work_of_node};
use crate::operations::{Came, operated};
use crate::parts::{Operation, Outcome, Part, Work};
use crate::paths::is_comparison;
use form_folding::put_folded;
use heylo_formula::Goal;
use heylo_graph::{Graph, Node, NodeId};
use std::alloc::{AllocError, Global};
use std::rc::Rc;

/// The maximum number of terms of all values computed in advance. The limit is needed because each
/// partial sum of n variables repeats the terms of the sum before it.
const MOST_TERMS: usize = 262_144;

/// Returns the part of the whole goal, whose result is the values of both forms.
pub(crate) fn goal_part(alloc: Global, goal: &Goal) -> Result<Rc<Part, Global>, AllocError>
    ensures { IfOk result (λ p. IsGoalPart (goal_of goal.now) p.value) }
{
    let mut graph = Graph::new(alloc)?;
    let stated = put_folded(&mut graph, &goal.stated)?;
    let found = put_folded(&mut graph, &goal.found)?;
    let parts = parts_of(alloc, &graph)?;
    let first = part_at(alloc, &parts, Some(stated))?;
    let second = part_at(alloc, &parts, Some(found))?;
    unsure(alloc, Work::Two(Operation::Ends, first, second))
}

/// Returns the parts of the nodes of `graph`, in the order of their numbers.
fn parts_of(alloc: Global, graph: &Graph) -> Result<Vec<Rc<Part, Global>>, AllocError>
    ensures { IfOk result (λ parts. AreParts graph.now (map rc_value parts.items)) }
{
    let mut parts = Vec::with_capacity(alloc, graph.len())?;
    let mut room = MOST_TERMS;
    for i in 0..graph.len() {
        let work = work_of_node(alloc, graph.node(NodeId::new(i)), &parts)?;
        let part = ready_part(alloc, work, &mut room)?;
        parts.push(Rc::new(alloc, part)?)?;
    }
    Ok(parts)
}

/// Returns the part of `work`, whose own parts are evaluated in advance already. If it has a result
/// without any answer and `room` suffices for the terms of the result, the part is this result.
fn ready_part(alloc: Global, work: Work, room: &mut usize) -> Result<Part, AllocError>
    requires { IsReadyWork (work_of work) }
    ensures { IfOk result (IsReadyAs (work_of work)) }
{
    let work = with_question(alloc, work, room)?;
    let Work::Two(operation, first, second) = &work else {
        let asks = surely_asks(&work);
        return Ok(Part { work, asks });
    };
    match both(alloc, operation, first, second, room) {
        Ok(outcome) => {
            let work = Work::Known(outcome);
            Ok(Part { work, asks: false })
        }
        Err(Stop::Decide(atom)) => {
            let asks = is_comparison(&atom);
            if compares(operation) {
                let work = question(alloc, atom)?;
                Ok(Part { work, asks })
            } else {
                Ok(Part { work, asks })
            }
        }
        Err(Stop::Bits) => {
            let asks = surely_asks(&work);
            Ok(Part { work, asks })
        }
        Err(Stop::Memory(e)) => Err(e),
    }
}

/// Returns `work`; or, if its last operand or its test is a comparison and `work` reduces to one
/// part after each answer, this comparison with the two parts.
fn with_question(alloc: Global, work: Work, room: &mut usize) -> Result<Work, AllocError>
    requires { IsReadyWork (work_of work) }
    ensures { IfOk result (λ w. (asked_by_work (work_of w) ≡ asked_by_work (work_of work))
        × IsReadyWork (work_of w)) }
{
    let asking = match &work {
        Work::Two(_, _, second) => second,
        Work::Choice(test, _, _) => test,
        _ => return Ok(work),
    };
    let Work::Asks(atom, yes, no) = &asking.work else {
        return Ok(work);
    };
    let Some(one) = over(alloc, &work, yes, room)? else {
        return Ok(work);
    };
    let Some(other) = over(alloc, &work, no, room)? else {
        return Ok(work);
    };
    Ok(Work::Asks(Rc::clone(atom)?, one, other))
}

/// Returns the part to which `work` reduces if `part` replaces its operand that is a comparison.
fn over(
    alloc: Global,
    work: &Work,
    part: &Part,
    room: &mut usize,
) -> Result<Option<Rc<Part, Global>>, AllocError>
    requires work { IsReadyWork (work_of work.now) }
    requires part { IsReady (part_of part.now) }
    ensures { IfOk result (λ o.
        IfSome o (λ p. IsOver (work_of work.now) (part_of part.now) (part_of p.value))) }
{
    match work {
        Work::Two(operation, first, _) => match both(alloc, operation, first, part, room) {
            Ok(outcome) => Ok(Some(unsure(alloc, Work::Known(outcome))?)),
            Err(_) => Ok(None),
        },
        Work::Choice(_, yes, no) => match &part.work {
            Work::Known(Outcome::Truth(holds)) => {
                Ok(Some(Rc::clone(if *holds { yes } else { no })?))
            }
            _ => Ok(None),
        },
        _ => Ok(None),
    }
}

/// Returns the result of `operation` on two known parts if it asks nothing and `room` suffices, or
/// the comparison that it asks first, or `Stop::Bits` if nothing is known.
fn both(
    alloc: Global,
    operation: &Operation,
    first: &Part,
    second: &Part,
    room: &mut usize,
) -> Result<Outcome, Stop>
    requires first { IsReady (part_of first.now) }
    requires second { IsReady (part_of second.now) }
    ensures { TellsAtOnce operation.now (part_of first.now) (part_of second.now) result }
{
    match (&first.work, &second.work) {
        (Work::Known(x), Work::Known(y)) => {
            let Came { outcome, .. } = operated(alloc, operation, x, y, &[], 0)?;
            if has_room(room, &outcome) {
                Ok(outcome)
            } else {
                Err(Stop::Bits)
            }
        }
        _ => Err(Stop::Bits),
    }
}

/// Returns whether `room` suffices for the terms of `outcome`, and subtracts them from it.
fn has_room(room: &mut usize, outcome: &Outcome) -> bool {
    let Outcome::Number(value) = outcome else {
        return true;
    };
    let terms = value.as_ref().as_ref().map_or(0, |a| a.terms.len());
    let fits = terms <= *room;
    *room = room.saturating_sub(terms);
    fits
}

/// Returns true only if `operation` is a comparison of two values.
fn compares(operation: &Operation) -> bool
    ensures { IsTrue result → Compares operation.now }
{
    match operation {
        Operation::Of(node) => matches!(node, Node::Le(_, _) | Node::Lt(_, _)),
        Operation::Ends => false,
    }
}

/// Returns true only if `work` surely asks a comparison of numbers.
fn surely_asks(work: &Work) -> bool
    ensures { IsReadyWork (work_of work.now) → IsTrue result
        → Lasts 1 (asked_by_work (work_of work.now)) }
{
    match work {
        Work::Asks(atom, yes, no) => is_comparison(atom) || (yes.asks && no.asks),
        Work::Two(_, first, second) => first.asks || second.asks,
        Work::Choice(test, yes, no) => test.asks || (yes.asks && no.asks),
        _ => false,
    }
}
