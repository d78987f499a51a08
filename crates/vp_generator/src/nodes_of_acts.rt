//! The form of one act as a node of a graph. On an error the graph may have grown.

ghost use Rattle.std.specs.Prelude.{◌≡◌, ◌<◌, ◌^◌, length};
ghost use Rattle.heylo_formula.specs.Formula.{Form as plain};
ghost use Rattle.heylo_formula.specs.PlainTrees.{form_of, cond_of, term_of};
ghost use Rattle.heylo_formula.specs.Sizes.{nodes_in_term};
ghost use Rattle.heylo_formula.specs.Substitution.{subst};
ghost use Rattle.heylo_graph.specs.Trees.{Tree};
ghost use Rattle.heylo_graph.specs.Nodes.{Begins, IsFitting, IsFormula, IsNodeOf, Stands};
ghost use Rattle.vp_generator.specs.GeneratedForms.{pick_form, check_form, validate_form};
ghost use Rattle.vp_generator.specs.internal.FittingActs.{TermIsFit};
ghost use Rattle.vp_generator.specs.internal.GraphSteps.{IsMade, IsReady};

use crate::limits::DEEPEST;
use crate::stops::VpStop;
use heylo_formula::{Cond, Form, Term, Ty};
use heylo_graph::{Graph, Node, NodeId};
use heyvl_num::Frac;
use heyvl_places::CheckKind;

/// Returns the node if its tree is within the limits.
pub fn small(graph: &Graph, id: NodeId, most: u64) -> Result<NodeId, VpStop>
    requires most { most < 2 ^ 63 }
    requires there { id < length graph.now }
    ensures { (f : plain) → Stands graph.now id (Tree.formula f) → IsMade most f result graph.now }
{
    if graph.nodes(id) > most {
        return Err(VpStop::Nodes);
    }
    if graph.depth(id) > DEEPEST {
        return Err(VpStop::Depth);
    }
    Ok(id)
}

/// Adds the node to the graph, and returns it if its tree is within the limits.
pub fn joined(graph: &mut Graph, node: Node, most: u64) -> Result<NodeId, VpStop>
    requires most { most < 2 ^ 63 }
    requires fits { IsFitting graph.old node }
    ensures begins { Begins graph.old graph.new }
    ensures made { (f : plain) → IsNodeOf graph.old node (Tree.formula f)
        → IsMade most f result graph.new }
{
    let id = graph.join(node)?;
    small(graph, id, most)
}

/// Returns the node of `form` with the term for the variable. A term that exceeds the limit alone
/// is not substituted.
pub fn put(
    graph: &mut Graph,
    form: NodeId,
    var: u32,
    with: &Term,
    most: u64,
) -> Result<NodeId, VpStop>
    requires most { most < 2 ^ 63 }
    requires ready { IsReady most (TermIsFit var (term_of with.now)) graph.old form }
    ensures begins { Begins graph.old graph.new }
    ensures made { (k : plain) → Stands graph.old form (Tree.formula k)
        → IsMade most (subst var (term_of with.now) k) result graph.new }
{
    if with.nodes() > most {
        return kept(graph, form, var, with, most);
    }
    let next = graph.subst(form, var, with)?;
    small(graph, next, most)
}

/// Returns `form` if the variable is not free in it; otherwise `Nodes`, as the term alone has more
/// than `most` nodes.
fn kept(graph: &Graph, form: NodeId, var: u32, with: &Term, most: u64) -> Result<NodeId, VpStop>
    requires ready { IsReady most (TermIsFit var (term_of with.now)) graph.now form }
    requires large { most < nodes_in_term (term_of with.now) }
    ensures { (k : plain) → Stands graph.now form (Tree.formula k)
        → IsMade most (subst var (term_of with.now) k) result graph.now }
{
    if graph.free(form, var)? {
        Err(VpStop::Nodes)
    } else {
        Ok(form)
    }
}

/// Returns the node of a binder of the variable over `body`.
pub fn bound(
    graph: &mut Graph,
    up: bool,
    var: u32,
    ty: Ty,
    body: NodeId,
    most: u64,
) -> Result<NodeId, VpStop>
    requires most { most < 2 ^ 63 }
    requires body { IsFormula graph.old body }
    ensures begins { Begins graph.old graph.new }
    ensures made { (k : plain) → Stands graph.old body (Tree.formula k)
        → IsMade most (plain.bind up var var ty k) result graph.new }
{
    joined(graph, Node::Bind(up, var, var, ty, body), most)
}

/// Returns the node of the weight times `form`.
pub fn scaled(graph: &mut Graph, weight: Frac, form: NodeId, most: u64) -> Result<NodeId, VpStop>
    requires most { most < 2 ^ 63 }
    requires form { IsFormula graph.old form }
    ensures begins { Begins graph.old graph.new }
    ensures made { (k : plain) → Stands graph.old form (Tree.formula k)
        → IsMade most (plain.scale weight k) result graph.new }
{
    joined(graph, Node::Scale(weight, form), most)
}

/// Returns the node of the sum of two forms.
pub fn added(graph: &mut Graph, first: NodeId, second: NodeId, most: u64) -> Result<NodeId, VpStop>
    requires most { most < 2 ^ 63 }
    requires first { IsFormula graph.old first }
    requires second { IsFormula graph.old second }
    ensures begins { Begins graph.old graph.new }
    ensures made { (k l : plain) → Stands graph.old first (Tree.formula k)
        → Stands graph.old second (Tree.formula l) → IsMade most (plain.sum k l) result graph.new }
{
    joined(graph, Node::Sum(first, second), most)
}

/// Returns the node of `form` plus the reward.
pub fn rewarded(graph: &mut Graph, reward: &Form, form: NodeId, most: u64) -> Result<NodeId, VpStop>
    requires most { most < 2 ^ 63 }
    requires form { IsFormula graph.old form }
    ensures begins { Begins graph.old graph.new }
    ensures made { (k : plain) → Stands graph.old form (Tree.formula k)
        → IsMade most (plain.sum k (form_of reward.now)) result graph.new }
{
    let held = graph.put(reward)?;
    added(graph, form, held, most)
}

/// Returns the node of the form that is `first` if the guard holds, otherwise `second`.
pub fn selected(
    graph: &mut Graph,
    guard: &Cond,
    first: NodeId,
    second: NodeId,
    most: u64,
) -> Result<NodeId, VpStop>
    requires most { most < 2 ^ 63 }
    requires first { IsFormula graph.old first }
    requires second { IsFormula graph.old second }
    ensures begins { Begins graph.old graph.new }
    ensures made { (k l : plain) → Stands graph.old first (Tree.formula k)
        → Stands graph.old second (Tree.formula l)
        → IsMade most (plain.select (cond_of guard.now) k l) result graph.new }
{
    let test = graph.put_cond(guard)?;
    joined(graph, Node::Select(test, first, second), most)
}

/// Returns the node of the larger of two forms if `up`, otherwise of the smaller.
pub fn picked(
    graph: &mut Graph,
    up: bool,
    first: NodeId,
    second: NodeId,
    most: u64,
) -> Result<NodeId, VpStop>
    requires most { most < 2 ^ 63 }
    requires first { IsFormula graph.old first }
    requires second { IsFormula graph.old second }
    ensures begins { Begins graph.old graph.new }
    ensures made { (k l : plain) → Stands graph.old first (Tree.formula k)
        → Stands graph.old second (Tree.formula l)
        → IsMade most (pick_form up k l) result graph.new }
{
    if up {
        joined(graph, Node::Max(first, second), most)
    } else {
        joined(graph, Node::Min(first, second), most)
    }
}

/// Returns the node of a check of a formula before `form`.
pub fn checked(
    graph: &mut Graph,
    kind: CheckKind,
    held: &Form,
    form: NodeId,
    most: u64,
) -> Result<NodeId, VpStop>
    requires most { most < 2 ^ 63 }
    requires form { IsFormula graph.old form }
    ensures begins { Begins graph.old graph.new }
    ensures made { (k : plain) → Stands graph.old form (Tree.formula k)
        → IsMade most (check_form kind (form_of held.now) k) result graph.new }
{
    let left = graph.put(held)?;
    check_joined(graph, kind, left, form, most)
}

/// Returns the node of a check whose formula is the node `held`, before `form`.
fn check_joined(
    graph: &mut Graph,
    kind: CheckKind,
    held: NodeId,
    form: NodeId,
    most: u64,
) -> Result<NodeId, VpStop>
    requires most { most < 2 ^ 63 }
    requires held { IsFormula graph.old held }
    requires form { IsFormula graph.old form }
    ensures begins { Begins graph.old graph.new }
    ensures made { (k l : plain) → Stands graph.old held (Tree.formula k)
        → Stands graph.old form (Tree.formula l)
        → IsMade most (check_form kind k l) result graph.new }
{
    match kind {
        CheckKind::Assert => joined(graph, Node::Min(held, form), most),
        CheckKind::Assume => joined(graph, Node::Imply(held, form), most),
        CheckKind::CoAssert => joined(graph, Node::Max(held, form), most),
        CheckKind::CoAssume => joined(graph, Node::CoImply(held, form), most),
    }
}

/// Returns the node of a `covalidate` before `form` if `co`, otherwise of a `validate`.
pub fn validated(graph: &mut Graph, co: bool, form: NodeId, most: u64) -> Result<NodeId, VpStop>
    requires most { most < 2 ^ 63 }
    requires form { IsFormula graph.old form }
    ensures begins { Begins graph.old graph.new }
    ensures made { (k : plain) → Stands graph.old form (Tree.formula k)
        → IsMade most (validate_form co k) result graph.new }
{
    if co {
        joined(graph, Node::CoValidate(form), most)
    } else {
        joined(graph, Node::Validate(form), most)
    }
}
