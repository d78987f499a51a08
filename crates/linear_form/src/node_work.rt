//! The parts of the nodes of a graph.

ghost use Rattle.std.specs.Prelude.{◌≡◌, false, true, IfOk, List, map, Some, ℕ};
ghost use Rattle.std.specs.Rc.{rc_value};
ghost use Rattle.heyvl_num.specs.ExtendedNumbers.{value_of};
ghost use Rattle.heylo_graph.specs.Nodes.{IsNodeOf, tree_at};
ghost use Rattle.heylo_graph.specs.Trees.{Tree};
ghost use Rattle.heylo_graph.specs.declared.nodes.Node.{Node as NodeValue};
ghost use Rattle.linear_form.specs.PlainPaths.{atom_of};
ghost use Rattle.linear_form.specs.Questions.{number, sized};
ghost use Rattle.linear_form.specs.internal.GoalParts.{AreParts, IsPartOf, IsWorkOf};
ghost use Rattle.linear_form.specs.internal.Outcomes.{Result as Outcomes, valued};
ghost use Rattle.linear_form.specs.internal.Parts.{asked_by_work, IsReadyWork, known_part};
ghost use Rattle.linear_form.specs.internal.Parts.{Part as PlainPart, Work as PlainWork};
ghost use Rattle.linear_form.specs.internal.PlainParts.{part_of, work_of};
ghost use Rattle.linear_values.specs.PlainValues.{linear_of};

use crate::operators::{nothing, unit};
use crate::parts::{Operation, Outcome, Part, Work};
use crate::paths::Atom;
use heylo_graph::{Node, NodeId};
use heyvl_num::Ext;
use linear_values::Lin;
use linear_values::lin::{constant, is_sized, variable};
use std::alloc::{AllocError, Global};
use std::rc::Rc;

/// Returns the work of the part for `node`; `parts` are those of the nodes before it.
pub(crate) fn work_of_node(
    alloc: Global,
    node: &Node,
    parts: &[Rc<Part, Global>],
) -> Result<Work, AllocError>
    ensures { IfOk result (λ w. (ns : List NodeValue) (t : Tree)
        → AreParts ns (map rc_value parts.now) → IsNodeOf ns node.now t → IsWorkOf t w) }
{
    let first = part_at(alloc, parts, node.first())?;
    let second = part_at(alloc, parts, node.second())?;
    let third = part_at(alloc, parts, node.third())?;
    match node {
        Node::Const(v) => constant_work(alloc, v),
        Node::Var(x) => value_work(alloc, Some(variable(alloc, *x)?)),
        Node::Embed(_) => picked(alloc, first, None, nothing(alloc)),
        Node::Iverson(_) => picked(alloc, first, unit(alloc), nothing(alloc)),
        Node::Select(_, _, _) | Node::Ite(_, _, _) => Ok(Work::Choice(first, second, third)),
        Node::Bind(_, _, _, _, _) => Ok(Work::Large),
        Node::Truth(b) => Ok(Work::Known(Outcome::Truth(*b))),
        Node::Flag(x) => question(alloc, Rc::new(alloc, Atom::Truth(*x))?),
        Node::Not(_) => denied(alloc, first),
        Node::And(_, _) => Ok(Work::Choice(first, second, truth(alloc, false)?)),
        Node::Or(_, _) => Ok(Work::Choice(first, truth(alloc, true)?, second)),
        Node::Same(_, _) => {
            let other = unsure(alloc, denied(alloc, Rc::clone(&second)?)?)?;
            Ok(Work::Choice(first, second, other))
        }
        Node::Scale(_, _) | Node::Validate(_) | Node::CoValidate(_) => {
            let unread = unsure(alloc, value_work(alloc, nothing(alloc))?)?;
            Ok(Work::Two(Operation::Of(*node), unread, first))
        }
        _ => Ok(Work::Two(Operation::Of(*node), first, second)),
    }
}

/// Returns the part of the node `id`. If there is no such node, the result is arbitrary.
pub(crate) fn part_at(
    alloc: Global,
    parts: &[Rc<Part, Global>],
    id: Option<NodeId>,
) -> Result<Rc<Part, Global>, AllocError>
    ensures { IfOk result (λ p. (ns : List NodeValue) (i : ℕ) (t : Tree)
        → AreParts ns (map rc_value parts.now) → id ≡ Some i → tree_at ns i ≡ Some t
        → IsPartOf t p.value) }
{
    let index = id.map_or(0, NodeId::index);
    match parts.get(index) {
        Some(part) => Ok(Rc::clone(part)?),
        None => unsure(alloc, Work::Large),
    }
}

/// Returns the part of `work`, without a claim that it asks a comparison.
pub(crate) fn unsure(alloc: Global, work: Work) -> Result<Rc<Part, Global>, AllocError>
    ensures { IfOk result (λ p. part_of p.value ≡ PlainPart.part (work_of work) false) }
{
    Ok(Rc::new(alloc, Part { work, asks: false })?)
}

/// Returns the work that selects the value `yes` or `no` by the truth of `test`.
fn picked(
    alloc: Global,
    test: Rc<Part, Global>,
    yes: Option<Lin>,
    no: Option<Lin>,
) -> Result<Work, AllocError>
    ensures { IfOk result (λ w. work_of w
        ≡ PlainWork.choice (part_of test.value) (known_part (Outcomes.number (linear_of yes)))
        (known_part (Outcomes.number (linear_of no)))) }
{
    let one = unsure(alloc, value_work(alloc, yes)?)?;
    let other = unsure(alloc, value_work(alloc, no)?)?;
    Ok(Work::Choice(test, one, other))
}

fn denied(alloc: Global, test: Rc<Part, Global>) -> Result<Work, AllocError>
    ensures { IfOk result (λ w. work_of w
        ≡ PlainWork.choice (part_of test.value) (known_part (Outcomes.truth false))
        (known_part (Outcomes.truth true))) }
{
    let no = truth(alloc, false)?;
    Ok(Work::Choice(test, no, truth(alloc, true)?))
}

/// Returns the work whose result is the answer to `atom`.
pub(crate) fn question(alloc: Global, atom: Rc<Atom, Global>) -> Result<Work, AllocError>
    ensures { IfOk result (λ w. work_of w
        ≡ PlainWork.asks (atom_of atom.value) (known_part (Outcomes.truth true))
        (known_part (Outcomes.truth false))) }
{
    let yes = truth(alloc, true)?;
    Ok(Work::Asks(atom, yes, truth(alloc, false)?))
}

fn truth(alloc: Global, holds: bool) -> Result<Rc<Part, Global>, AllocError>
    ensures { IfOk result (λ p. part_of p.value ≡ known_part (Outcomes.truth holds)) }
{
    unsure(alloc, Work::Known(Outcome::Truth(holds)))
}

/// Returns the work with the known result `value`; None is infinity.
fn value_work(alloc: Global, value: Option<Lin>) -> Result<Work, AllocError>
    ensures { IfOk result (λ w. work_of w ≡ PlainWork.known (Outcomes.number (linear_of value))) }
{
    Ok(Work::Known(Outcome::Number(Rc::new(alloc, value)?)))
}

fn constant_work(alloc: Global, v: &Ext) -> Result<Work, AllocError>
    ensures { IfOk result (λ w.
        (asked_by_work (work_of w) ≡ valued (sized (number (value_of v.now))))
        × IsReadyWork (work_of w)) }
{
    let Ext::Fin(x) = v else {
        return value_work(alloc, None);
    };
    let value = constant(alloc, *x);
    if is_sized(&value) {
        value_work(alloc, Some(value))
    } else {
        Ok(Work::Large)
    }
}
