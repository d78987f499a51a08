//! The form of a draw in a graph.

ghost use Rattle.std.specs.Prelude.{◌≡◌, ◌<◌, ◌^◌};
ghost use Rattle.heylo_formula.specs.Formula.{Form as plain};
ghost use Rattle.heylo_formula.specs.PlainTrees.{term_of};
ghost use Rattle.heylo_graph.specs.Trees.{Tree};
ghost use Rattle.heylo_graph.specs.Nodes.{Begins, IsFormula, Stands};
ghost use Rattle.heyvl_acts.specs.PlainActs.{parts_of};
ghost use Rattle.vp_generator.specs.GeneratedForms.{part_form, draw_form, sum_of_parts};
ghost use Rattle.vp_generator.specs.internal.FittingActs.{DrawIsFit, PartsAreFit, TermIsFit};
ghost use Rattle.vp_generator.specs.internal.GraphSteps.{IsMade, IsPlaced, IsReady};

use crate::nodes_of_acts::{added, put, scaled};
use crate::stops::VpStop;
use heylo_formula::Term;
use heylo_graph::{Graph, NodeId};
use heyvl_num::Frac;

/// Returns the node of a draw of `var` before `form`: the sum of the forms of its parts, from the
/// left.
pub fn drawn(
    graph: &mut Graph,
    var: u32,
    parts: &[(Frac, Term)],
    form: NodeId,
    most: u64,
) -> Result<NodeId, VpStop>
    requires most { most < 2 ^ 63 }
    requires ready { IsReady most (DrawIsFit var (parts_of parts.now)) graph.old form }
    ensures begins { Begins graph.old graph.new }
    ensures made { (k : plain) → Stands graph.old form (Tree.formula k)
        → IsMade most (draw_form var (parts_of parts.now) k) result graph.new }
{
    match parts.split_first() {
        Some((first, others)) => match part(graph, var, first, form, most) {
            Ok(start) => sum_from(graph, var, others, form, start, most),
            Err(stop) => Err(stop),
        },
        None => unreachable!(),
    }
}

/// Returns the node of `start` plus the forms of the parts.
fn sum_from(
    graph: &mut Graph,
    var: u32,
    parts: &[(Frac, Term)],
    form: NodeId,
    start: NodeId,
    most: u64,
) -> Result<NodeId, VpStop>
    requires most { most < 2 ^ 63 }
    requires ready { IsReady most (PartsAreFit var (parts_of parts.now)) graph.old form }
    requires start { IsPlaced most graph.old start }
    ensures begins { Begins graph.old graph.new }
    ensures made { (k l : plain) → Stands graph.old form (Tree.formula k)
        → Stands graph.old start (Tree.formula l)
        → IsMade most (sum_of_parts var (parts_of parts.now) k l) result graph.new }
{
    let mut total = start;
    let mut rest = parts;
    'parts: while let Some((next, more)) = rest.split_first() {
        match with_part(graph, var, next, form, total, most) {
            Ok(longer) => total = longer,
            Err(stop) => return Err(stop),
        }
        rest = more;
    }
    Ok(total)
}

/// Returns the node of `total` plus the form of one part.
fn with_part(
    graph: &mut Graph,
    var: u32,
    one: &(Frac, Term),
    form: NodeId,
    total: NodeId,
    most: u64,
) -> Result<NodeId, VpStop>
    requires most { most < 2 ^ 63 }
    requires ready { IsReady most (TermIsFit var (term_of one.now.1)) graph.old form }
    requires total { IsFormula graph.old total }
    ensures begins { Begins graph.old graph.new }
    ensures made { (k l : plain) → Stands graph.old form (Tree.formula k)
        → Stands graph.old total (Tree.formula l)
        → IsMade most (plain.sum l (part_form var (one.now.0, term_of one.now.1) k)) result
        graph.new }
{
    match part(graph, var, one, form, most) {
        Ok(next) => added(graph, total, next, most),
        Err(stop) => Err(stop),
    }
}

/// Returns the node of the form of one part.
fn part(
    graph: &mut Graph,
    var: u32,
    one: &(Frac, Term),
    form: NodeId,
    most: u64,
) -> Result<NodeId, VpStop>
    requires most { most < 2 ^ 63 }
    requires ready { IsReady most (TermIsFit var (term_of one.now.1)) graph.old form }
    ensures begins { Begins graph.old graph.new }
    ensures made { (k : plain) → Stands graph.old form (Tree.formula k)
        → IsMade most (part_form var (one.now.0, term_of one.now.1) k) result graph.new }
{
    match put(graph, form, var, &one.1, most) {
        Ok(next) => scaled(graph, one.0, next, most),
        Err(stop) => Err(stop),
    }
}
