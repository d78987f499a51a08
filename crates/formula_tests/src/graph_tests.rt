//! Formulas in a graph, worked out by hand: adding a formula again adds no node, and a tree with
//! shared parts stays small.

ghost use Rattle.std.specs.Prelude.{◌<◌, length, IfOk, IfSome, OnOk};
ghost use Rattle.heylo_graph.specs.Nodes.{Begins};
ghost use Rattle.formula_tests.specs.PlainFormulas.{StandsPlain};

use crate::kinds::{Kind, OfForm, check_texts};
use heylo_formula::{Cond, Form, Term};
use heylo_graph::{Graph, Node, NodeId};
use heyvl_num::Frac;
use std::alloc::{AllocError, Global};
use std::fmt::Write;
use test_lines::count;
use test_texts::fraction;

/// Writes the number of nodes and the depth of a node's tree, and the length of the list.
fn write_sizes(nodes: u64, depth: u64, len: usize, text: &mut String) -> Result<(), AllocError> {
    write!(text, "{nodes} {depth} {len}")
}

/// Adds a form, reads it from the graph, and adds it again. Returns its number, or `None` if there
/// are two.
fn put_again(graph: &mut Graph, form: &Form) -> Result<Option<NodeId>, AllocError>
    ensures { IfOk result (λ o. IfSome o (λ i. i < length graph.new)) }
{
    let first = graph.put(form)?;
    let tree = graph.tree(first)?;
    let second = graph.put(&tree)?;
    let third = graph.put(form)?;
    Ok(if first == second && first == third {
        Some(third)
    } else {
        None
    })
}

/// Writes the sizes of a form that is added to an empty list, and added again.
pub fn write_put(alloc: Global, form: &Form, text: &mut String) -> Result<(), AllocError> {
    let mut graph = Graph::new(alloc)?;
    match put_again(&mut graph, form)? {
        Some(id) => write_sizes(graph.nodes(id), graph.depth(id), graph.len(), text),
        None => text.push_str("two numbers"),
    }
}

/// Returns 1/2 times the formula with `truth` for the variable 0.
fn half_of(graph: &mut Graph, id: NodeId, half: Frac, truth: bool) -> Result<NodeId, AllocError>
    requires { StandsPlain graph.old id }
    ensures begins { OnOk result (Begins graph.old graph.new) }
    ensures plain { IfOk result (λ i. StandsPlain graph.new i) }
{
    let part = graph.subst(id, 0, &Term::Truth(Cond::Const(truth)))?;
    graph.join(Node::Scale(half, part))
}

/// Returns the formula after a fair flip of the variable 0.
fn thrown(graph: &mut Graph, id: NodeId, half: Frac) -> Result<NodeId, AllocError>
    requires { StandsPlain graph.old id }
    ensures { IfOk result (λ i. StandsPlain graph.new i) }
{
    let heads = half_of(graph, id, half, true)?;
    let tails = half_of(graph, id, half, false)?;
    graph.join(Node::Sum(heads, tails))
}

/// Returns the formula after `times` fair flips.
fn thrown_often(
    graph: &mut Graph,
    start: NodeId,
    half: Frac,
    times: u64,
) -> Result<NodeId, AllocError>
    requires { StandsPlain graph.old start }
    ensures { IfOk result (λ i. StandsPlain graph.new i) }
{
    let mut id = start;
    for _ in 0..times {
        id = thrown(graph, id, half)?;
    }
    Ok(id)
}

/// Returns the formula `[b0]`, which is 1 if the variable 0 is true, and 0 otherwise.
fn holds(graph: &mut Graph) -> Result<NodeId, AllocError>
    ensures { IfOk result (λ i. StandsPlain graph.new i) }
{
    let test = graph.join(Node::Flag(0))?;
    graph.join(Node::Iverson(test))
}

/// Writes the sizes of the formula `[b0]` after `times` fair flips of the variable 0.
pub fn write_coins(alloc: Global, times: &str, text: &mut String) -> Result<(), AllocError> {
    let mut graph = Graph::new(alloc)?;
    let start = holds(&mut graph)?;
    let id = thrown_often(&mut graph, start, fraction("1/2")?, count(times)?)?;
    write_sizes(graph.nodes(id), graph.depth(id), graph.len(), text)
}

/// The number of nodes and the depth of the tree, and the length of the list.
const PUT: &str = "\
v0 v0 + gives 3 2 2
v0 v0 + v0 v0 + min gives 7 3 3
b0 b0 [] b0 [] select gives 6 3 3
v0 v1 + bind:1 v0 v1 + bind:1 + gives 9 4 5";

/// Each flip makes 2*n + 3 nodes of n, so that 60 flips make 5*2^60 - 3 of 2. The list has 2 nodes
/// at first; the first flip adds 7 and each further one 2, as the variable is then not free. From
/// 2^63 nodes on, the number stays the same.
const COINS: &str = "\
0 gives 2 2 2
1 gives 7 4 9
2 gives 17 6 11
60 gives 5764607523034234877 122 127
61 gives 9223372036854775808 124 129
400 gives 9223372036854775808 802 807";

#[test]
fn graphs(rt: HostRuntime) -> Result<(), AllocError> {
    check_texts(&rt, Kind::Form(OfForm::Put), &[PUT])?;
    check_texts(&rt, Kind::Coins, &[COINS])
}
