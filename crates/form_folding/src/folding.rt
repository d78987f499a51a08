//! Forms in which sums of numbers are folded.

ghost use Rattle.std.specs.Prelude.{IfOk, IfSome, List, OnOk};
ghost use Rattle.heylo_formula.specs.PlainTrees.{cond_of, form_of};
ghost use Rattle.heylo_formula.specs.Formula.{Form as PlainForm};
ghost use Rattle.heylo_graph.specs.Nodes.{Begins, IsFitting};
ghost use Rattle.heylo_graph.specs.declared.nodes.Node.{Node as NodeValue};
ghost use Rattle.form_folding.specs.declared.folding.Folded.TheVariants.{Number};
ghost use Rattle.form_folding.specs.Foldings.{HasFolded};
ghost use Rattle.form_folding.specs.internal.FoldedNodes.{FoldsSome, HasFoldedTest, IsFolded};
ghost use Rattle.form_folding.specs.internal.FoldedNodes.{IsFoldedNode};

use heylo_formula::{Cond, Form};
use heylo_graph::{Graph, Node, NodeId};
use heyvl_num::{Ext, Frac};
use linear_values::numbers::{fits, sum};
use std::alloc::AllocError;

/// The result of folding a form.
#[derive(Clone, Copy)]
enum Folded {
    /// A number.
    Number(Frac),
    /// The node with this number.
    Node(NodeId),
}

/// Adds `form` to `graph`, with sums of two numbers below 2^62 computed, and returns its node. So
/// parts that differ only in such sums share a node.
///
/// Sums, multiples, brackets and choices, and the comparisons in these, are searched for such sums,
/// because flips and assignments produce them. All other forms are added as they are.
#[cycle(folding)]
pub fn put_folded(graph: &mut Graph, form: &Form) -> Result<NodeId, AllocError>
    ensures begins { OnOk result (Begins graph.old graph.new) }
    ensures folded { IfOk result (λ id. HasFolded graph.new id (form_of form.now)) }
{
    let found = fold(graph, form)?;
    node_of(graph, found)
}

/// Folds `form`.
#[cycle(folding)]
fn fold(graph: &mut Graph, form: &Form) -> Result<Folded, AllocError>
    ensures begins { OnOk result (Begins graph.old graph.new) }
    ensures folded { IfOk result (λ r. IsFolded graph.new r (form_of form.now)) }
{
    match form {
        Form::Const(v) => match v {
            Ext::Fin(x) => Ok(Folded::Number(*x)),
            Ext::Inf => Ok(Folded::Node(graph.put(form)?)),
        },
        Form::Sum(a, b) => folded_sum(graph, a, b),
        Form::Scale(w, a) => {
            let part = put_folded(graph, a)?;
            join_for(graph, Node::Scale(*w, part))
        }
        Form::Iverson(g) => {
            let part = put_test(graph, g)?;
            join_for(graph, Node::Iverson(part))
        }
        Form::Select(g, a, b) => {
            let test = put_test(graph, g)?;
            let (yes, no) = put_both(graph, a, b)?;
            join_for(graph, Node::Select(test, yes, no))
        }
        _ => Ok(Folded::Node(graph.put(form)?)),
    }
}

/// Folds the sum of `a` and `b`.
#[cycle(folding)]
fn folded_sum(graph: &mut Graph, a: &Form, b: &Form) -> Result<Folded, AllocError>
    ensures begins { OnOk result (Begins graph.old graph.new) }
    ensures folded { IfOk result
        (λ r. IsFolded graph.new r (PlainForm.sum (form_of a.now) (form_of b.now))) }
{
    let left = fold(graph, a)?;
    let right = fold(graph, b)?;
    join_sum(graph, left, right)
}

/// Folds `a` and `b`, and returns their nodes.
#[cycle(folding)]
fn put_both(graph: &mut Graph, a: &Form, b: &Form) -> Result<(NodeId, NodeId), AllocError>
    ensures begins { OnOk result (Begins graph.old graph.new) }
    ensures first { IfOk result (λ ids. HasFolded graph.new ids.0 (form_of a.now)) }
    ensures second { IfOk result (λ ids. HasFolded graph.new ids.1 (form_of b.now)) }
{
    let first = put_folded(graph, a)?;
    let second = put_folded(graph, b)?;
    Ok((first, second))
}

/// Folds a condition, and returns its node.
#[cycle(folding)]
fn put_test(graph: &mut Graph, cond: &Cond) -> Result<NodeId, AllocError>
    ensures begins { OnOk result (Begins graph.old graph.new) }
    ensures folded { IfOk result (λ id. HasFoldedTest graph.new id (cond_of cond.now)) }
{
    match cond {
        Cond::Le(a, b) => {
            let (left, right) = put_both(graph, a, b)?;
            graph.join(Node::Le(left, right))
        }
        Cond::Lt(a, b) => {
            let (left, right) = put_both(graph, a, b)?;
            graph.join(Node::Lt(left, right))
        }
        _ => graph.put_cond(cond),
    }
}

/// Returns the node of a folded form.
fn node_of(graph: &mut Graph, found: Folded) -> Result<NodeId, AllocError>
    ensures begins { OnOk result (Begins graph.old graph.new) }
    ensures folded { (f : PlainForm) → IsFolded graph.old found f
        → IfOk result (λ id. HasFolded graph.new id f) }
{
    match found {
        Folded::Number(x) => graph.join(Node::Const(Ext::Fin(x))),
        Folded::Node(id) => Ok(id),
    }
}

/// Folds the sum of two folded forms.
fn join_sum(graph: &mut Graph, left: Folded, right: Folded) -> Result<Folded, AllocError>
    requires left { FoldsSome graph.old left }
    requires right { FoldsSome graph.old right }
    ensures begins { OnOk result (Begins graph.old graph.new) }
    ensures folded { (f g : PlainForm) → IsFolded graph.old left f → IsFolded graph.old right g
        → IfOk result (λ r. IsFolded graph.new r (PlainForm.sum f g)) }
{
    if let Some(x) = sum_of(&left, &right) {
        return Ok(Folded::Number(x));
    }
    let first = node_of(graph, left)?;
    let second = node_of(graph, right)?;
    join_for(graph, Node::Sum(first, second))
}

/// Returns the sum of two numbers below 2^62.
fn sum_of(left: &Folded, right: &Folded) -> Option<Frac>
    ensures { (ns : List NodeValue) (f g : PlainForm) → IsFolded ns left.now f
        → IsFolded ns right.now g
        → IfSome result (λ x. IsFolded ns (Number x) (PlainForm.sum f g)) }
{
    match (left, right) {
        (Folded::Number(x), Folded::Number(y)) if fits(x) && fits(y) => Some(sum(x, y)),
        _ => None,
    }
}

/// Adds `node` to the graph.
fn join_for(graph: &mut Graph, node: Node) -> Result<Folded, AllocError>
    requires { IsFitting graph.old node }
    ensures begins { OnOk result (Begins graph.old graph.new) }
    ensures folded { (f : PlainForm) → IsFoldedNode graph.old node f
        → IfOk result (λ r. IsFolded graph.new r f) }
{
    let id = graph.join(node)?;
    Ok(Folded::Node(id))
}
