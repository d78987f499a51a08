//! The pre-expectation of acts as a form, generated from the last act to the first in a graph with
//! sharing.

ghost use Rattle.std.specs.Prelude.{IfOk, ◌≡◌, ◌<◌, ◌≤◌, ◌^◌};
ghost use Rattle.heylo_formula.specs.Formula.{Form as plain};
ghost use Rattle.heylo_formula.specs.PlainTrees.{form_of, cond_of};
ghost use Rattle.heylo_graph.specs.Trees.{Tree};
ghost use Rattle.heylo_graph.specs.Nodes.{Begins, IsFormula, Stands};
ghost use Rattle.heyvl_acts.specs.PlainActs.{act_of, acts_of, arms_of};
ghost use Rattle.vp_generator.specs.Answers.{IsAnswer};
ghost use Rattle.vp_generator.specs.Fit.{AreFit};
ghost use Rattle.vp_generator.specs.GeneratedForms.{pick_form, vp, vp_act, vp_arms};
ghost use Rattle.vp_generator.specs.GraphAnswers.{Follows, HasNoAny, HaveNoAny, HaveNoAnyIn};
ghost use Rattle.vp_generator.specs.GraphAnswers.{IsAnswerIn, MakeNoBinder};
ghost use Rattle.vp_generator.specs.internal.FittingActs.{IsFit, ArmsAreFit};
ghost use Rattle.vp_generator.specs.internal.GraphSteps.{IsMade, IsPlaced, IsReady};

use crate::draws::drawn;
use crate::limits::MOST_NODES;
use crate::nodes_of_acts::{bound, checked, picked, put, rewarded, selected, small, validated};
use crate::stops::VpStop;
use crate::tosses::tossed;
use heylo_formula::{Cond, Form};
use heylo_graph::{Graph, NodeId};
use heyvl_acts::Act;
use std::alloc::{AllocError, Global};

/// The number of acts that are processed before the size of the graph is compared with that of the
/// form.
const ACTS_AT_ONCE: usize = 4;

/// A graph is crowded if it has more than this many times the nodes of the form's tree; the other
/// nodes belong to forms that later acts have changed.
const CROWDED: u64 = 4;

/// Returns the form of the acts before `post`.
///
/// # Errors
///
/// - `Nodes`: the form has more than 200,000 nodes.
/// - `Depth`: the form is more than 1,000 deep.
/// - `Memory`: memory ran out.
pub fn vp(alloc: Global, acts: &[Act], post: Form) -> Result<Form, VpStop>
    requires { AreFit (acts_of acts.now) (form_of post) }
    ensures { IsAnswer (vp (acts_of acts.now) (form_of post)) result }
{
    let mut graph = Graph::new(alloc)?;
    let mut form = graph.put(&post)?;
    let mut rest = acts;
    'parts: loop {
        let (before, last) = rest.split_at(rest.len().saturating_sub(ACTS_AT_ONCE));
        match vp_in(&mut graph, last, form, MOST_NODES) {
            Ok(next) => {
                if before.is_empty() {
                    return Ok(graph.tree(next)?);
                }
                (graph, form) = uncrowded(alloc, graph, next)?;
            }
            Err(stop) => return Err(stop),
        }
        rest = before;
    }
}

/// Returns the form in its graph, or in a new graph if its graph is crowded.
fn uncrowded(alloc: Global, graph: Graph, form: NodeId) -> Result<(Graph, NodeId), AllocError>
    requires { IsFormula graph form }
    ensures { IfOk result (λ r. (k : plain) → Stands graph form (Tree.formula k)
        → Stands r.0 r.1 (Tree.formula k)) }
{
    if graph.len() as u64 / CROWDED <= graph.nodes(form) {
        return Ok((graph, form));
    }
    let tree = graph.tree(form)?;
    let mut own = Graph::new(alloc)?;
    let id = own.put(&tree)?;
    Ok((own, id))
}

/// Returns the node of the form of the acts before the node `post`. If `most` is at least 2^30,
/// neither the acts nor `post` may make a binder. On an error the graph is unchanged.
///
/// # Errors
///
/// - `Nodes`: the form has more than `most` nodes.
/// - `Depth`: the form is more than 1,000 deep.
/// - `Memory`: memory ran out.
pub fn vp_in(graph: &mut Graph, acts: &[Act], post: NodeId, most: u64) -> Result<NodeId, VpStop>
    requires most { most < 2 ^ 63 }
    requires post { Follows (acts_of acts.now) graph.old post }
    requires plain { 2 ^ 30 ≤ most → MakeNoBinder (acts_of acts.now) graph.old post }
    ensures { (k : plain) → Stands graph.old post (Tree.formula k)
        → IsAnswerIn most graph.old (vp (acts_of acts.now) k) result graph.new }
{
    let len = graph.len();
    let result = from_post(graph, acts, post, most);
    if result.is_err() {
        graph.cut(len);
    }
    result
}

/// Returns the node of the form of the acts before the node `post`. On an error the graph may have
/// grown.
fn from_post(graph: &mut Graph, acts: &[Act], post: NodeId, most: u64) -> Result<NodeId, VpStop>
    requires most { most < 2 ^ 63 }
    requires post { Follows (acts_of acts.now) graph.old post }
    requires plain { 2 ^ 30 ≤ most → MakeNoBinder (acts_of acts.now) graph.old post }
    ensures begins { Begins graph.old graph.new }
    ensures made { (k : plain) → Stands graph.old post (Tree.formula k)
        → IsMade most (vp (acts_of acts.now) k) result graph.new }
{
    match small(graph, post, most) {
        Ok(form) => over_acts(graph, acts, form, most),
        Err(stop) => Err(stop),
    }
}

#[cycle(generating)]
fn over_acts(graph: &mut Graph, acts: &[Act], post: NodeId, most: u64) -> Result<NodeId, VpStop>
    requires most { most < 2 ^ 63 }
    requires ready { IsReady most (AreFit (acts_of acts.now)) graph.old post }
    requires calm { 2 ^ 30 ≤ most → HaveNoAny (acts_of acts.now) }
    ensures begins { Begins graph.old graph.new }
    ensures made { (k : plain) → Stands graph.old post (Tree.formula k)
        → IsMade most (vp (acts_of acts.now) k) result graph.new }
{
    let mut form = post;
    let mut rest = acts;
    'acts: while let Some((act, before)) = rest.split_last() {
        match over_act(graph, act, form, most) {
            Ok(next) => form = next,
            Err(stop) => return Err(stop),
        }
        rest = before;
    }
    Ok(form)
}

#[cycle(generating)]
fn over_act(graph: &mut Graph, act: &Act, form: NodeId, most: u64) -> Result<NodeId, VpStop>
    requires most { most < 2 ^ 63 }
    requires ready { IsReady most (IsFit (act_of act.now)) graph.old form }
    requires calm { 2 ^ 30 ≤ most → HasNoAny (act_of act.now) }
    ensures begins { Begins graph.old graph.new }
    ensures made { (k : plain) → Stands graph.old form (Tree.formula k)
        → IsMade most (vp_act (act_of act.now) k) result graph.new }
{
    match act {
        Act::Set(x, t, _) => put(graph, form, *x, t, most),
        Act::Draw(x, parts, _) => drawn(graph, *x, parts, form, most),
        Act::Toss(x, weight, span) => tossed(graph, *x, weight, *span, form, most),
        Act::Any(x, up, ty, _) => bound(graph, *up, *x, *ty, form, most),
        Act::Reward(f, _) => rewarded(graph, f, form, most),
        Act::If(arms, otherwise, _) => over_if(graph, arms, otherwise, form, most),
        Act::Pick(up, a, b, _) => over_pick(graph, *up, a, b, form, most),
        Act::Check(kind, f, _) => checked(graph, *kind, f, form, most),
        Act::Validate(co, _) => validated(graph, *co, form, most),
        Act::Loop(_) => unreachable!(),
        Act::Call(_, _, _, _) => unreachable!(),
    }
}

#[cycle(generating)]
fn over_pick(
    graph: &mut Graph,
    up: bool,
    a: &[Act],
    b: &[Act],
    form: NodeId,
    most: u64,
) -> Result<NodeId, VpStop>
    requires most { most < 2 ^ 63 }
    requires first { IsReady most (AreFit (acts_of a.now)) graph.old form }
    requires second { IsReady most (AreFit (acts_of b.now)) graph.old form }
    requires calm { 2 ^ 30 ≤ most → HaveNoAny (acts_of a.now) × HaveNoAny (acts_of b.now) }
    ensures begins { Begins graph.old graph.new }
    ensures made { (k : plain) → Stands graph.old form (Tree.formula k)
        → IsMade most (pick_form up (vp (acts_of a.now) k) (vp (acts_of b.now) k)) result
        graph.new }
{
    match over_acts(graph, a, form, most) {
        Ok(first) => match over_acts(graph, b, form, most) {
            Ok(second) => picked(graph, up, first, second, most),
            Err(stop) => Err(stop),
        },
        Err(stop) => Err(stop),
    }
}

#[cycle(generating)]
fn over_if(
    graph: &mut Graph,
    arms: &[(Cond, Vec<Act>)],
    otherwise: &[Act],
    form: NodeId,
    most: u64,
) -> Result<NodeId, VpStop>
    requires most { most < 2 ^ 63 }
    requires arms { IsReady most (ArmsAreFit (arms_of arms.now)) graph.old form }
    requires otherwise { IsReady most (AreFit (acts_of otherwise.now)) graph.old form }
    requires calm { 2 ^ 30 ≤ most → HaveNoAnyIn (arms_of arms.now)
        × HaveNoAny (acts_of otherwise.now) }
    ensures begins { Begins graph.old graph.new }
    ensures made { (k : plain) → Stands graph.old form (Tree.formula k)
        → IsMade most (vp_arms (arms_of arms.now) k (vp (acts_of otherwise.now) k)) result
        graph.new }
{
    match over_acts(graph, otherwise, form, most) {
        Ok(start) => over_arms(graph, arms, form, start, most),
        Err(stop) => Err(stop),
    }
}

#[cycle(generating)]
fn over_arms(
    graph: &mut Graph,
    arms: &[(Cond, Vec<Act>)],
    form: NodeId,
    start: NodeId,
    most: u64,
) -> Result<NodeId, VpStop>
    requires most { most < 2 ^ 63 }
    requires ready { IsReady most (ArmsAreFit (arms_of arms.now)) graph.old form }
    requires start { IsPlaced most graph.old start }
    requires calm { 2 ^ 30 ≤ most → HaveNoAnyIn (arms_of arms.now) }
    ensures begins { Begins graph.old graph.new }
    ensures made { (k l : plain) → Stands graph.old form (Tree.formula k)
        → Stands graph.old start (Tree.formula l)
        → IsMade most (vp_arms (arms_of arms.now) k l) result graph.new }
{
    let mut chosen = start;
    let mut rest = arms;
    'arms: while let Some((arm, before)) = rest.split_last() {
        match over_arm(graph, arm, form, chosen, most) {
            Ok(next) => chosen = next,
            Err(stop) => return Err(stop),
        }
        rest = before;
    }
    Ok(chosen)
}

#[cycle(generating)]
fn over_arm(
    graph: &mut Graph,
    arm: &(Cond, Vec<Act>),
    form: NodeId,
    others: NodeId,
    most: u64,
) -> Result<NodeId, VpStop>
    requires most { most < 2 ^ 63 }
    requires ready { IsReady most (AreFit (acts_of arm.now.1.items)) graph.old form }
    requires others { IsFormula graph.old others }
    requires calm { 2 ^ 30 ≤ most → HaveNoAny (acts_of arm.now.1.items) }
    ensures begins { Begins graph.old graph.new }
    ensures made { (k l : plain) → Stands graph.old form (Tree.formula k)
        → Stands graph.old others (Tree.formula l)
        → IsMade most (plain.select (cond_of arm.now.0) (vp (acts_of arm.now.1.items) k) l) result
        graph.new }
{
    match over_acts(graph, &arm.1, form, most) {
        Ok(branch) => selected(graph, &arm.0, branch, others, most),
        Err(stop) => Err(stop),
    }
}
