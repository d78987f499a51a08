//! Renaming of variables in a graph.

ghost use Rattle.std.specs.Prelude.{◌≡◌, ◌<◌, true, false, Option, length, get_or, slice_get, Some};
ghost use Rattle.std.specs.Prelude.{None, IfOk, IfSome, IfNone, OnOk};
ghost use Rattle.heylo_graph.specs.Trees.{Tree, is_free_tree, renamed_tree};
ghost use Rattle.heylo_graph.specs.Nodes.{Begins, IsGraph, IsFitting, Stands, assembled, tree_at};
ghost use Rattle.heylo_graph.specs.Parts.{first, second, third, with_parts, variable_of, is_flag};
ghost use Rattle.heylo_graph.specs.internal.Tables.{AreEmpty, IsBefore, IsReady, IsPartsOf, Moves};
ghost use Rattle.heylo_graph.specs.internal.Tables.{PartMoves};
ghost use Rattle.heylo_graph.specs.declared.nodes.Node.{Node as NodeValue};

use crate::graphs::Graph;
use crate::nodes::NodeId;
use heyvl_num::Ext;
use std::alloc::AllocError;

impl Graph {
    /// Returns the node whose tree is that of `id` with `to` in place of each free occurrence of
    /// `from`. On an error some nodes may have been appended.
    pub(crate) fn rename(&mut self, id: NodeId, from: u32, to: u32) -> Result<NodeId, AllocError>
        requires { id < length self.old }
        ensures begins { Begins self.old self.new }
        ensures moves { IfOk result (λ r. Moves (renamed_tree from to) self.new id r) }
    {
        let free = self.marks(id, from, false)?;
        let mut notes = self.no_notes(free.len())?;
        self.renamed(id, from, to, &free, &mut notes)
    }

    /// Returns a list without cached results.
    pub(crate) fn no_notes(&self, count: usize) -> Result<Vec<Option<NodeId>>, AllocError>
        ensures size { IfOk result (λ n. length n.items ≡ count) }
        ensures none { IfOk result (λ n. AreEmpty n.items) }
    {
        vec![in self.alloc(); None; count]
    }

    pub(crate) fn parts(&self, id: NodeId) -> (Option<NodeId>, Option<NodeId>, Option<NodeId>)
        requires { id < length self.now }
        ensures parts { IsPartsOf self.now id result.0 result.1 result.2 }
        ensures before { IsBefore result.0 id × IsBefore result.1 id × IsBefore result.2 id }
        ensures graph { IsGraph self.now }
    {
        let node = self.node(id);
        (node.first(), node.second(), node.third())
    }

    /// Returns, for a variable, whether it is Boolean; `None` for other nodes.
    pub(crate) fn leaf(&self, id: NodeId) -> Option<bool>
        requires { id < length self.now }
        ensures some { IfSome result (λ b. (n : NodeValue) → slice_get self.now id ≡ Some n
            → (b ≡ is_flag n) × (w : _) × (variable_of n ≡ Some w)) }
        ensures none { IfNone result ((n : NodeValue) → slice_get self.now id ≡ Some n
            → variable_of n ≡ None) }
        ensures node { (n : NodeValue) × (slice_get self.now id ≡ Some n) }
        ensures graph { IsGraph self.now }
    {
        let node = self.node(id);
        match node.variable_of() {
            Some(_) => Some(node.is_flag()),
            None => None,
        }
    }

    #[cycle(renaming)]
    fn renamed(
        &mut self,
        id: NodeId,
        from: u32,
        to: u32,
        free: &[bool],
        notes: &mut Vec<Option<NodeId>>,
    ) -> Result<NodeId, AllocError>
        requires within { id < length free.now }
        requires ready { IsReady (renamed_tree from to) from self.old free.now notes.old.items }
        ensures begins { Begins self.old self.new }
        ensures ready { OnOk result
            (IsReady (renamed_tree from to) from self.new free.now notes.new.items) }
        ensures moves { IfOk result (λ r. Moves (renamed_tree from to) self.new id r) }
    {
        if !free[id.index()] {
            return Ok(id);
        }
        if let Some(done) = notes[id.index()] {
            return Ok(done);
        }
        let moved = self.renamed_node(id, from, to, free, notes)?;
        notes[id.index()] = Some(moved);
        Ok(moved)
    }

    #[cycle(renaming)]
    fn renamed_part(
        &mut self,
        part: Option<NodeId>,
        from: u32,
        to: u32,
        free: &[bool],
        notes: &mut Vec<Option<NodeId>>,
    ) -> Result<NodeId, AllocError>
        requires within { IsBefore part (length free.now) }
        requires ready { IsReady (renamed_tree from to) from self.old free.now notes.old.items }
        ensures begins { Begins self.old self.new }
        ensures ready { OnOk result
            (IsReady (renamed_tree from to) from self.new free.now notes.new.items) }
        ensures moves { IfOk result (λ r. PartMoves (renamed_tree from to) self.new part r) }
    {
        match part {
            None => Ok(NodeId::new(0)),
            Some(id) => self.renamed(id, from, to, free, notes),
        }
    }

    #[cycle(renaming)]
    fn renamed_node(
        &mut self,
        id: NodeId,
        from: u32,
        to: u32,
        free: &[bool],
        notes: &mut Vec<Option<NodeId>>,
    ) -> Result<NodeId, AllocError>
        requires within { id < length free.now }
        requires free { get_or free.now id false ≡ true }
        requires ready { IsReady (renamed_tree from to) from self.old free.now notes.old.items }
        ensures begins { Begins self.old self.new }
        ensures ready { OnOk result
            (IsReady (renamed_tree from to) from self.new free.now notes.new.items) }
        ensures moves { IfOk result (λ r. Moves (renamed_tree from to) self.new id r) }
    {
        if self.leaf(id).is_some() {
            self.join_variable(id, to)
        } else {
            self.renamed_parts(id, from, to, free, notes)
        }
    }

    #[cycle(renaming)]
    fn renamed_parts(
        &mut self,
        id: NodeId,
        from: u32,
        to: u32,
        free: &[bool],
        notes: &mut Vec<Option<NodeId>>,
    ) -> Result<NodeId, AllocError>
        requires within { id < length free.now }
        requires free { get_or free.now id false ≡ true }
        requires ready { IsReady (renamed_tree from to) from self.old free.now notes.old.items }
        requires inner { (n : NodeValue) → slice_get self.old id ≡ Some n → variable_of n ≡ None }
        ensures begins { Begins self.old self.new }
        ensures ready { OnOk result
            (IsReady (renamed_tree from to) from self.new free.now notes.new.items) }
        ensures moves { IfOk result (λ r. Moves (renamed_tree from to) self.new id r) }
    {
        let (first, second, third) = self.parts(id);
        let a = self.renamed_part(first, from, to, free, notes)?;
        let b = self.renamed_part(second, from, to, free, notes)?;
        let c = self.renamed_part(third, from, to, free, notes)?;
        self.join_over(id, a, b, c)
    }

    /// Inserts the variable `to`, of the kind of the variable `id`.
    fn join_variable(&mut self, id: NodeId, to: u32) -> Result<NodeId, AllocError>
        requires within { id < length self.old }
        requires variable { (n : NodeValue) → slice_get self.old id ≡ Some n
            → (w : _) × (variable_of n ≡ Some w) }
        ensures begins { Begins self.old self.new }
        ensures tree { (from : _)
            → ((t : Tree) → tree_at self.old id ≡ Some t → is_free_tree from t ≡ true)
            → IfOk result (λ r. Moves (renamed_tree from to) self.new id r) }
    {
        // Makes the type known to the proof.
        let _known: Option<Ext> = None;
        let next = self.node(id).with_variable(to);
        self.join(next)
    }

    /// Inserts the node `id` with other children.
    pub(crate) fn join_over(
        &mut self,
        id: NodeId,
        a: NodeId,
        b: NodeId,
        c: NodeId,
    ) -> Result<NodeId, AllocError>
        requires within { id < length self.old }
        requires fits { (n : NodeValue) → slice_get self.old id ≡ Some n
            → IsFitting self.old (with_parts n a b c) }
        ensures begins { Begins self.old self.new }
        ensures tree { IfOk result (λ r. (n : NodeValue) (t : Tree) → slice_get self.old id ≡ Some n
            → assembled (tree_at self.old) (with_parts n a b c) ≡ Some t → Stands self.new r t) }
    {
        // Makes the type known to the proof.
        let _known: Option<Ext> = None;
        let next = self.node(id).with_parts(a, b, c);
        self.join(next)
    }
}
