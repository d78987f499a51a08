//! Occurrences of variables in a graph.

ghost use Rattle.std.specs.Prelude.{◌≡◌, ◌<◌, ◌+◌, ◌||◌, Bool, List, length, IfOk, Some};
ghost use Rattle.heylo_graph.specs.Trees.{Tree, is_free_tree, occurs_tree};
ghost use Rattle.heylo_graph.specs.Nodes.{Stands, assembled, tree_at};
ghost use Rattle.heylo_graph.specs.Parts.{first, second, third, variable_of, bound_by};
ghost use Rattle.heylo_graph.specs.internal.Tables.{AreMarked, IsBefore, PartIsMarked, is_marked};
ghost use Rattle.heylo_graph.specs.declared.nodes.Node.{Node as NodeValue};

use crate::graphs::Graph;
use crate::nodes::{Node, NodeId};
use std::alloc::AllocError;

/// Returns the mark of a child; false if there is none.
fn part_mark(table: &[bool], part: Option<NodeId>) -> bool
    requires { IsBefore part (length table.now) }
    ensures { (binders : Bool) (x : _) (ns : List NodeValue) → AreMarked binders x ns table.now
        → PartIsMarked binders x ns part result }
{
    match part {
        None => false,
        Some(id) => table[id.index()],
    }
}

fn one_of(a: bool, b: bool, c: bool) -> bool
    ensures { result ≡ (a || (b || c)) }
{
    a || (b || c)
}

/// Returns whether the variable occurs in a node, from the marks of its children.
fn mark_by(node: &Node, var: u32, binders: bool, table: &[bool]) -> bool
    requires first { IsBefore (first node.now) (length table.now) }
    requires second { IsBefore (second node.now) (length table.now) }
    requires third { IsBefore (third node.now) (length table.now) }
    ensures { (ns : List NodeValue) (t : Tree) → AreMarked binders var ns table.now
        → assembled (tree_at ns) node.now ≡ Some t → result ≡ is_marked binders var t }
{
    match node.variable_of() {
        Some(x) => var == x,
        None => match node.bound_by() {
            Some(x) => if var == x {
                binders
            } else {
                part_mark(table, node.first())
            },
            None => {
                let a = part_mark(table, node.first());
                let b = part_mark(table, node.second());
                let c = part_mark(table, node.third());
                one_of(a, b, c)
            }
        },
    }
}

impl Graph {
    /// Returns whether the variable is free in the tree of a node.
    pub fn free(&self, id: NodeId, var: u32) -> Result<bool, AllocError>
        requires { id < length self.now }
        ensures { IfOk result (λ b. (t : Tree) → Stands self.now id t → b ≡ is_free_tree var t) }
    {
        let table = self.marks(id, var, false)?;
        Ok(table[id.index()])
    }

    /// Returns whether the number occurs in the tree of a node, as a variable or as the variable of
    /// a binder.
    pub fn occurs(&self, id: NodeId, var: u32) -> Result<bool, AllocError>
        requires { id < length self.now }
        ensures { IfOk result (λ b. (t : Tree) → Stands self.now id t → b ≡ occurs_tree var t) }
    {
        let table = self.marks(id, var, true)?;
        Ok(table[id.index()])
    }

    /// Returns the marks of the nodes up to `id`: whether the variable occurs if `binders`, where
    /// the variables of binders count; otherwise whether it is free.
    pub(crate) fn marks(&self, id: NodeId, var: u32, binders: bool) -> Result<Vec<bool>, AllocError>
        requires { id < length self.now }
        ensures len { IfOk result (λ t. length t.items ≡ id + 1) }
        ensures marked { IfOk result (λ t. AreMarked binders var self.now t.items) }
    {
        let count = self.count_to(id);
        let mut table: Vec<bool> = Vec::with_capacity(self.alloc(), count)?;
        for i in 0..count {
            let mark = self.mark_at(i, var, binders, &table);
            table.push(mark)?;
        }
        Ok(table)
    }

    fn count_to(&self, id: NodeId) -> usize
        requires { id < length self.now }
        ensures { result ≡ id + 1 }
    {
        let len = self.len();
        if len <= id.index() {
            len
        } else {
            id.index() + 1
        }
    }

    /// Returns whether the variable occurs in node `i`, from the marks of the nodes before it.
    fn mark_at(&self, i: usize, var: u32, binders: bool, table: &[bool]) -> bool
        requires within { i < length self.now }
        requires size { length table.now ≡ i }
        requires marked { AreMarked binders var self.now table.now }
        ensures { (t : Tree) → tree_at self.now i ≡ Some t → result ≡ is_marked binders var t }
    {
        mark_by(self.node(NodeId::new(i)), var, binders, table)
    }
}
