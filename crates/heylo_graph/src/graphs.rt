//! Graphs: lists of different nodes, with the sizes of their trees.

ghost use Rattle.std.specs.Prelude.{◌^◌, ◌≡◌, ◌<◌, ◌≤◌, ℕ, [], List, Option, length, min, take};
ghost use Rattle.std.specs.Prelude.{slice_get, IfOk, OnErr, Some, OnOk};
ghost use Rattle.heylo_graph.specs.Trees.{Tree, nodes_of, depth_of};
ghost use Rattle.heylo_graph.specs.Parts.{first, second, third};
ghost use Rattle.heylo_graph.specs.Nodes.{Stands, IsGraph, IsNodeOf, IsFitting, IsJoined};
ghost use Rattle.heylo_graph.specs.Nodes.{AreDifferent, Begins, HasTree, assembled, tree_at};
ghost use Rattle.heylo_graph.specs.internal.StoredSizes.{size_of, part_size};
ghost use Rattle.heylo_graph.specs.internal.Tables.{IsBefore, PartTree};

use crate::nodes::{Node, NodeId};
use crate::sizes::{Size, above, below};
use heyvl_num::Ext;
use indexmap::IndexSet;
use std::alloc::{AllocError, Global};
use std::marker::Model;

/// A list of different nodes, in which the children of each node are before it. It allocates from
/// the allocator with which it was made. A node never changes its number or its tree; new nodes are
/// appended.
#[derive(Drop)]
pub struct Graph {
    nodes: IndexSet<Node>,
    sizes: Vec<Size>,
    alloc: Global,
}

impl Model for Graph {
    ghost use Rattle.std.specs.Prelude.{List};
    ghost use Rattle.heylo_graph.specs.declared.nodes.Node.{Node as NodeValue};
    ghost use Rattle.heylo_graph.specs.internal.StoredSizes.{IsStored};

    ghost Value = { List NodeValue };

    ghost view = { λ g. g.nodes.keys };

    ghost invariant = { λ g. IsStored g.nodes.keys g.sizes.items };
}

impl Graph {
    /// Returns the empty graph. Nothing is allocated; the error is for implementations that
    /// allocate.
    pub fn new(alloc: Global) -> Result<Graph, AllocError>
        ensures { IfOk result (λ graph. graph ≡ []) }
    {
        Ok(Graph::empty(alloc))
    }

    fn empty(alloc: Global) -> Graph
        ensures { result ≡ [] }
    {
        Graph {
            nodes: IndexSet::new(alloc),
            sizes: Vec::new(alloc),
            alloc,
        }
    }

    /// Returns the number of nodes, which is below 2^63.
    pub fn len(&self) -> usize
        ensures len { result ≡ length self.now }
        ensures small { result < 2 ^ 63 }
        ensures different { AreDifferent self.now }
    {
        self.nodes.len()
    }

    /// Returns the node with a number.
    pub fn node(&self, id: NodeId) -> &Node
        requires { id < length self.now }
        ensures node { slice_get self.now id ≡ Some result.now }
        ensures graph { IsGraph self.now }
        ensures tree { (t : Tree) → Stands self.now id t → IsNodeOf self.now result.now t }
    {
        &self.nodes.as_slice()[id.index()]
    }

    /// Returns the number of nodes of a node's tree, or 2^63 if it is larger.
    pub fn nodes(&self, id: NodeId) -> u64
        requires { id < length self.now }
        ensures { (t : Tree) → Stands self.now id t → result ≡ min (2 ^ 63) (nodes_of t) }
    {
        self.sizes[id.index()].nodes
    }

    /// Returns the number of nodes on a longest path from the root of a node's tree to a leaf, or
    /// 2^63 if it is larger. A leaf has depth 1.
    pub fn depth(&self, id: NodeId) -> u64
        requires { id < length self.now }
        ensures { (t : Tree) → Stands self.now id t → result ≡ min (2 ^ 63) (depth_of t) }
    {
        self.sizes[id.index()].depth
    }

    pub(crate) fn alloc(&self) -> Global {
        self.alloc
    }

    /// Removes all nodes but the first `len`.
    pub fn cut(&mut self, len: usize)
        requires { len ≤ length self.old }
        ensures { self.new ≡ take len self.old }
    {
        self.nodes.truncate(len);
        self.sizes.truncate(len);
    }

    /// Inserts a node, whose children have to be in the graph and of the right kinds, and returns
    /// its number. A node that is in the graph already keeps its number; otherwise it is appended.
    /// On an error the graph is unchanged.
    pub fn join(&mut self, node: Node) -> Result<NodeId, AllocError>
        requires { IsFitting self.old node }
        ensures begins { OnOk result (Begins self.old self.new) }
        ensures last { OnOk result (IsJoined self.old node self.new) }
        ensures joined { IfOk result (λ id. slice_get self.new id ≡ Some node) }
        ensures tree { IfOk result (λ id. (t : Tree) → assembled (tree_at self.old) node ≡ Some t
            → Stands self.new id t) }
        ensures present { (t : Tree) → HasTree self.old t
            → assembled (tree_at self.old) node ≡ Some t → OnOk result (self.new ≡ self.old) }
        ensures number { (i : ℕ) (t : Tree) → Stands self.old i t
            → assembled (tree_at self.old) node ≡ Some t → IfOk result (λ id. id ≡ i) }
        ensures err { OnErr result (self.new ≡ self.old) }
    {
        // Makes the type known to the proof.
        let _known: Option<Ext> = None;
        let _count = self.nodes.len();
        let size = self.size_over(&node);
        self.sizes.push(size)?;
        let result = self.nodes.insert_full(node);
        let len = self.nodes.len();
        self.sizes.truncate(len);
        let (index, _) = result?;
        Ok(NodeId::new(index))
    }

    /// Returns the size of a node's tree, from the sizes of its children.
    fn size_over(&self, node: &Node) -> Size
        requires { IsFitting self.now node.now }
        ensures { (t : Tree) → assembled (tree_at self.now) node.now ≡ Some t → result ≡ size_of t }
    {
        let a = self.part_size(node.first());
        let b = self.part_size(node.second());
        let c = self.part_size(node.third());
        Size {
            nodes: above(a.nodes, b.nodes, c.nodes),
            depth: below(a.depth, b.depth, c.depth),
        }
    }

    fn part_size(&self, part: Option<NodeId>) -> Size
        requires { IsBefore part (length self.now) }
        ensures { (t : Option Tree) → PartTree (tree_at self.now) part t → result ≡ part_size t }
    {
        match part {
            None => Size { nodes: 0, depth: 0 },
            Some(id) => self.sizes[id.index()],
        }
    }
}
