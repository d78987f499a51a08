//! The form of a toss in a graph, in which the toss's formula is shared.

ghost use Rattle.std.specs.Prelude.{◌≡◌, ◌<◌, ◌^◌, true, false, IfOk};
ghost use Rattle.heylo_formula.specs.Formula.{Cond as condition, Form as plain, Term as term};
ghost use Rattle.heylo_formula.specs.PlainTrees.{form_of};
ghost use Rattle.heylo_formula.specs.Substitution.{subst};
ghost use Rattle.heylo_graph.specs.Trees.{Tree};
ghost use Rattle.heylo_graph.specs.Nodes.{Begins, IsFormula, Stands};
ghost use Rattle.heyvl_num.specs.Value.{oneᵛ};
ghost use Rattle.vp_generator.specs.GeneratedForms.{toss_form};
ghost use Rattle.vp_generator.specs.internal.FittingActs.{FlagIsFit, TossIsFit};
ghost use Rattle.vp_generator.specs.internal.GraphSteps.{IsMade, IsReady};

use crate::nodes_of_acts::{added, joined, put};
use crate::stops::VpStop;
use heylo_formula::{Cond, Form, Term};
use heylo_graph::{Graph, Node, NodeId};
use heyvl_num::Ext;
use heyvl_places::Span;
use std::alloc::AllocError;

/// Returns the node of a toss of the variable before `form`. Both products have the place `span`.
pub fn tossed(
    graph: &mut Graph,
    var: u32,
    weight: &Form,
    span: Span,
    form: NodeId,
    most: u64,
) -> Result<NodeId, VpStop>
    requires most { most < 2 ^ 63 }
    requires ready { IsReady most (TossIsFit var (form_of weight.now)) graph.old form }
    ensures begins { Begins graph.old graph.new }
    ensures made { (k : plain) → Stands graph.old form (Tree.formula k)
        → IsMade most (toss_form var (form_of weight.now) span k) result graph.new }
{
    let heads = at_most_one(graph, weight)?;
    let tails = rest_of_one(graph, heads)?;
    both_sides(graph, var, heads, tails, span, form, most)
}

/// Returns the node of the sum of both sides, each with its weight.
fn both_sides(
    graph: &mut Graph,
    var: u32,
    heads: NodeId,
    tails: NodeId,
    span: Span,
    form: NodeId,
    most: u64,
) -> Result<NodeId, VpStop>
    requires most { most < 2 ^ 63 }
    requires ready { IsReady most (FlagIsFit var) graph.old form }
    requires heads { IsFormula graph.old heads }
    requires tails { IsFormula graph.old tails }
    ensures begins { Begins graph.old graph.new }
    ensures made { (k h t : plain) → Stands graph.old form (Tree.formula k)
        → Stands graph.old heads (Tree.formula h) → Stands graph.old tails (Tree.formula t)
        → IsMade most
        (plain.sum (plain.product h (subst var (term.truth (condition.constant true)) k) span)
        (plain.product t (subst var (term.truth (condition.constant false)) k) span)) result
        graph.new }
{
    match side(graph, var, true, heads, span, form, most) {
        Ok(first) => match side(graph, var, false, tails, span, form, most) {
            Ok(second) => added(graph, first, second, most),
            Err(stop) => Err(stop),
        },
        Err(stop) => Err(stop),
    }
}

/// Returns the node of the smaller of the formula and 1.
fn at_most_one(graph: &mut Graph, weight: &Form) -> Result<NodeId, AllocError>
    ensures begins { Begins graph.old graph.new }
    ensures tree { IfOk result
        (λ i. Stands graph.new i
        (Tree.formula (plain.min (form_of weight.now) (plain.number oneᵛ)))) }
{
    let held = graph.put(weight)?;
    let one = graph.join(Node::Const(Ext::one()))?;
    graph.join(Node::Min(held, one))
}

/// Returns the node of 1 minus the form `least`, which is at most 1.
fn rest_of_one(graph: &mut Graph, least: NodeId) -> Result<NodeId, AllocError>
    requires { IsFormula graph.old least }
    ensures begins { Begins graph.old graph.new }
    ensures tree { IfOk result (λ i. (k : plain) → Stands graph.old least (Tree.formula k)
        → Stands graph.new i (Tree.formula (plain.cut (plain.number oneᵛ) k))) }
{
    let one = graph.join(Node::Const(Ext::one()))?;
    graph.join(Node::Cut(one, least))
}

/// Returns the node of the weight times `form` with the truth value for the variable.
fn side(
    graph: &mut Graph,
    var: u32,
    truth: bool,
    weight: NodeId,
    span: Span,
    form: NodeId,
    most: u64,
) -> Result<NodeId, VpStop>
    requires most { most < 2 ^ 63 }
    requires ready { IsReady most (FlagIsFit var) graph.old form }
    requires weight { IsFormula graph.old weight }
    ensures begins { Begins graph.old graph.new }
    ensures made { (k w : plain) → Stands graph.old form (Tree.formula k)
        → Stands graph.old weight (Tree.formula w)
        → IsMade most (plain.product w (subst var (term.truth (condition.constant truth)) k) span)
        result graph.new }
{
    match put(graph, form, var, &Term::Truth(Cond::Const(truth)), most) {
        Ok(next) => joined(graph, Node::Product(weight, next, span), most),
        Err(stop) => Err(stop),
    }
}
