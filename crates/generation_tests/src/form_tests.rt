//! The forms of acts in a graph, worked out by hand: their sizes, or the limit that they pass, and
//! the length of the list.

ghost use Rattle.std.specs.Prelude.{◌<◌, ◌≤◌, ◌^◌, length, IfOk};
ghost use Rattle.heyvl_acts.specs.PlainActs.{acts_of};
ghost use Rattle.vp_generator.specs.GraphAnswers.{Follows, MakeNoBinder};

use crate::kinds::{Kind, check_text};
use crate::steps::{Step, before_any, holds, repeated, same};
use heylo_graph::{Graph, NodeId};
use heyvl_acts::Act;
use std::alloc::{AllocError, Global};
use std::fmt::Write;
use test_lines::count;
use vp_generator::{VpStop, vp_in};

/// Reads a limit of nodes, below 2^63.
fn limit(word: &str) -> Result<u64, AllocError>
    ensures { IfOk result (λ most. most < 2 ^ 63) }
{
    let most = count(word)?;
    if most < 9_223_372_036_854_775_808 {
        Ok(most)
    } else {
        Err(AllocError)
    }
}

/// Writes the number of nodes and the depth of a node's tree, and the length of the list.
fn write_sizes(graph: &Graph, id: NodeId, text: &mut String) -> Result<(), AllocError>
    requires { id < length graph.now }
{
    let (nodes, depth, len) = (graph.nodes(id), graph.depth(id), graph.len());
    write!(text, "{nodes} {depth} {len}")
}

/// Writes the limit that is passed, and the length of the list.
fn write_stop(limit: &str, len: usize, text: &mut String) -> Result<(), AllocError> {
    write!(text, "{limit} {len}")
}

/// Writes the number of nodes and the depth of the form, or the limit that it passes, then the
/// length of the list.
fn write_form(
    graph: &mut Graph,
    acts: &[Act],
    post: NodeId,
    most: u64,
    text: &mut String,
) -> Result<(), AllocError>
    requires most { most < 2 ^ 63 }
    requires post { Follows (acts_of acts.now) graph.old post }
    requires plain { 2 ^ 30 ≤ most → MakeNoBinder (acts_of acts.now) graph.old post }
{
    match vp_in(graph, acts, post, most) {
        Ok(id) => write_sizes(graph, id, text),
        Err(VpStop::Nodes) => write_stop("Nodes", graph.len(), text),
        Err(VpStop::Depth) => write_stop("Depth", graph.len(), text),
        Err(VpStop::Memory(error)) => Err(error),
    }
}

/// Writes the form of `times` acts before the post `[b0]`, which is alone in the graph.
pub fn write_repeated(
    alloc: Global,
    step: Step,
    times: &str,
    most: &str,
    text: &mut String,
) -> Result<(), AllocError> {
    let mut graph = Graph::new(alloc)?;
    let post = holds(&mut graph)?;
    let acts = repeated(alloc, step, count(times)?)?;
    write_form(&mut graph, &acts, post, limit(most)?, text)
}

/// Writes the form of a flip of the variable 0 and a havoc of the variable 1, before the post that
/// both are the same.
pub fn write_before_any(alloc: Global, most: &str, text: &mut String) -> Result<(), AllocError> {
    let most = limit(most)?;
    if most >= 1_073_741_824 {
        return Err(AllocError);
    }
    let mut graph = Graph::new(alloc)?;
    let post = same(&mut graph)?;
    let acts = before_any(alloc)?;
    write_form(&mut graph, &acts, post, most, text)
}

/// Each draw makes 2*n + 3 nodes of n, so that 60 draws make 5*2^60 - 3 of 2. The list has 2 nodes
/// at first; the first draw adds 7 and each further one 2, as the variable is then not free. If the
/// limit is passed, the list is unchanged.
const DRAWS: &str = "\
0 2 gives 2 2 2
0 1 gives Nodes 2
1 7 gives 7 4 9
1 6 gives Nodes 2
2 17 gives 17 6 11
60 9223372036854775807 gives 5764607523034234877 122 127
60 5764607523034234876 gives Nodes 2
60 200000 gives Nodes 2
61 9223372036854775807 gives Nodes 2";

/// Each flip makes 2*n + 17 nodes of n, so that 58 flips make 19*2^58 - 17 of 2. The weight has 4
/// nodes, the smaller one of it and 1 has 6, and 1 minus this has 8. The first flip adds 13 nodes,
/// the second 15, and each further one 9.
const TOSSES: &str = "\
1 21 gives 21 6 15
1 20 gives Nodes 2
2 200000 gives 59 8 30
3 200000 gives 135 10 39
58 9223372036854775807 gives 5476377146882523119 120 534
60 9223372036854775807 gives Nodes 2
60 200000 gives Nodes 2";

/// Each act adds one to the depth of the form.
const DEPTHS: &str = "\
1 3 gives 3 3 3
998 200000 gives 1000 1000 1000
999 200000 gives Depth 2
999 999 gives Nodes 2";

/// The binder is in both products: 2*5 + 17 nodes of its 5.
const BEFORE_ANY: &str = "\
27 gives 27 6 22
26 gives Nodes 4
4 gives Nodes 4";

#[test]
fn forms(rt: HostRuntime) -> Result<(), AllocError> {
    check_text(&rt, Kind::Repeated(Step::Draw), DRAWS)?;
    check_text(&rt, Kind::Repeated(Step::Toss), TOSSES)?;
    check_text(&rt, Kind::Repeated(Step::Validate), DEPTHS)?;
    check_text(&rt, Kind::BeforeAny, BEFORE_ANY)
}
