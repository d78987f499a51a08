//! Substitution in a graph. A node in whose tree the variable is not free is returned as it is;
//! each other node is visited once. A binder that would capture takes a fresh variable, and only
//! its renamed body is visited.

ghost use Rattle.std.specs.Prelude.{◌≡◌, ◌+◌, ◌^◌, ◌<◌, ◌||◌, true, false, Option, length, get_or};
ghost use Rattle.std.specs.Prelude.{slice_get, Some, None, IfOk, IfSome, IfNone, OnOk, OnErr};
ghost use Rattle.heylo_formula.specs.Formula.{Form as PlainForm};
ghost use Rattle.heylo_formula.specs.PlainTrees.{form_of, term_of};
ghost use Rattle.heylo_formula.specs.Sizes.{nodes, nodes_in_term};
ghost use Rattle.heylo_formula.specs.Variables.{occurs, occurs_in_term};
ghost use Rattle.heylo_formula.specs.Binders.{has_binder};
ghost use Rattle.heylo_formula.specs.Substitution.{fresh, renamed, subst};
ghost use Rattle.heylo_graph.specs.Trees.{Tree, is_free_tree, subst_tree, tree_of_term};
ghost use Rattle.heylo_graph.specs.Nodes.{Begins, IsFormula, IsFitting, Stands, assembled, tree_at};
ghost use Rattle.heylo_graph.specs.Parts.{first, second, third, with_binder, variable_of, bound_by};
ghost use Rattle.heylo_graph.specs.Parts.{binder_of};
ghost use Rattle.heylo_graph.specs.internal.Tables.{IsBefore, IsCalm, IsReady, IsSmall, Moves};
ghost use Rattle.heylo_graph.specs.internal.Tables.{PartIsSmall, PartMoves, put_tree};
ghost use Rattle.heylo_graph.specs.declared.nodes.Node.{Node as NodeValue};

use crate::graphs::Graph;
use crate::nodes::{Node, NodeId};
use heylo_formula::{Form, Term};
use heyvl_num::Ext;
use std::alloc::AllocError;

/// The largest number of nodes of a tree that is built for a search.
const FEW_NODES: u64 = 100_000;

impl Graph {
    /// Returns the node of the form of `id` with the term `with` in place of each free occurrence
    /// of `var`. A binder of `var` is kept as it is. A binder that would capture a variable of the
    /// term takes the least number from 1,048,576 on that occurs neither in its body nor in the
    /// term. If the form has a binder, the form and the term together must have fewer than 2^31
    /// nodes. On an error the graph is unchanged.
    pub fn subst(&mut self, id: NodeId, var: u32, with: &Term) -> Result<NodeId, AllocError>
        requires form { IsFormula self.old id }
        requires small { (f : PlainForm) → Stands self.old id (Tree.formula f) → has_binder f ≡ true
            → nodes f + nodes_in_term (term_of with.now) < 2 ^ 31 }
        ensures begins { OnOk result (Begins self.old self.new) }
        ensures tree { IfOk result (λ r. (f : PlainForm) → Stands self.old id (Tree.formula f)
            → Stands self.new r (Tree.formula (subst var (term_of with.now) f))) }
        ensures err { OnErr result (self.new ≡ self.old) }
    {
        let len = self.len();
        let result = self.substituted_in(id, var, with);
        if result.is_err() {
            self.cut(len);
        }
        result
    }

    fn substituted_in(&mut self, id: NodeId, var: u32, with: &Term) -> Result<NodeId, AllocError>
        requires form { IsFormula self.old id }
        requires small { (t : Tree) → tree_at self.old id ≡ Some t → IsSmall (term_of with.now) t }
        ensures begins { Begins self.old self.new }
        ensures moves { IfOk result (λ r. Moves (subst_tree var (term_of with.now)) self.new id r) }
    {
        let free = self.marks(id, var, false)?;
        if !free[id.index()] {
            return Ok(id);
        }
        let put = self.put_term(with)?;
        let mut notes = self.no_notes(free.len())?;
        self.substituted(id, var, with, put, &free, &mut notes)
    }

    fn put_term(&mut self, term: &Term) -> Result<NodeId, AllocError>
        ensures begins { Begins self.old self.new }
        ensures tree { IfOk result (λ r. Stands self.new r (tree_of_term (term_of term.now))) }
    {
        match term {
            Term::Truth(g) => self.put_part(g),
            Term::Num(f) => self.put_form(f),
        }
    }

    /// Substitutes with a new table and without cached results.
    #[cycle(substituting)]
    fn substituted_anew(
        &mut self,
        id: NodeId,
        var: u32,
        with: &Term,
        put: NodeId,
    ) -> Result<NodeId, AllocError>
        requires within { id < length self.old }
        requires term { Stands self.old put (tree_of_term (term_of with.now)) }
        requires small { (t : Tree) → tree_at self.old id ≡ Some t → IsSmall (term_of with.now) t }
        ensures begins { Begins self.old self.new }
        ensures moves { IfOk result (λ r. Moves (subst_tree var (term_of with.now)) self.new id r) }
    {
        let free = self.marks(id, var, false)?;
        let mut notes = self.no_notes(free.len())?;
        self.substituted(id, var, with, put, &free, &mut notes)
    }

    #[cycle(substituting)]
    fn substituted(
        &mut self,
        id: NodeId,
        var: u32,
        with: &Term,
        put: NodeId,
        free: &[bool],
        notes: &mut Vec<Option<NodeId>>,
    ) -> Result<NodeId, AllocError>
        requires within { id < length free.now }
        requires term { Stands self.old put (tree_of_term (term_of with.now)) }
        requires small { (t : Tree) → tree_at self.old id ≡ Some t → IsSmall (term_of with.now) t }
        requires ready { IsReady
            (subst_tree var (term_of with.now)) var self.old free.now notes.old.items }
        ensures begins { Begins self.old self.new }
        ensures ready { OnOk result
            (IsReady (subst_tree var (term_of with.now)) var self.new free.now notes.new.items) }
        ensures moves { IfOk result (λ r. Moves (subst_tree var (term_of with.now)) self.new id r) }
    {
        if !free[id.index()] {
            return Ok(id);
        }
        if let Some(done) = notes[id.index()] {
            return Ok(done);
        }
        let moved = self.substituted_node(id, var, with, put, free, notes)?;
        notes[id.index()] = Some(moved);
        Ok(moved)
    }

    #[cycle(substituting)]
    fn substituted_part(
        &mut self,
        part: Option<NodeId>,
        var: u32,
        with: &Term,
        put: NodeId,
        free: &[bool],
        notes: &mut Vec<Option<NodeId>>,
    ) -> Result<NodeId, AllocError>
        requires within { IsBefore part (length free.now) }
        requires term { Stands self.old put (tree_of_term (term_of with.now)) }
        requires small { PartIsSmall (term_of with.now) self.old part }
        requires ready { IsReady
            (subst_tree var (term_of with.now)) var self.old free.now notes.old.items }
        ensures begins { Begins self.old self.new }
        ensures ready { OnOk result
            (IsReady (subst_tree var (term_of with.now)) var self.new free.now notes.new.items) }
        ensures moves { IfOk result
            (λ r. PartMoves (subst_tree var (term_of with.now)) self.new part r) }
    {
        match part {
            None => Ok(NodeId::new(0)),
            Some(id) => self.substituted(id, var, with, put, free, notes),
        }
    }

    #[cycle(substituting)]
    fn substituted_node(
        &mut self,
        id: NodeId,
        var: u32,
        with: &Term,
        put: NodeId,
        free: &[bool],
        notes: &mut Vec<Option<NodeId>>,
    ) -> Result<NodeId, AllocError>
        requires within { id < length free.now }
        requires free { get_or free.now id false ≡ true }
        requires term { Stands self.old put (tree_of_term (term_of with.now)) }
        requires small { (t : Tree) → tree_at self.old id ≡ Some t → IsSmall (term_of with.now) t }
        requires ready { IsReady
            (subst_tree var (term_of with.now)) var self.old free.now notes.old.items }
        ensures begins { Begins self.old self.new }
        ensures ready { OnOk result
            (IsReady (subst_tree var (term_of with.now)) var self.new free.now notes.new.items) }
        ensures moves { IfOk result (λ r. Moves (subst_tree var (term_of with.now)) self.new id r) }
    {
        match self.capturing(id, with) {
            Some((bound, body)) => self.captured_node(id, bound, body, var, with, put),
            None => self.calm_node(id, var, with, put, free, notes),
        }
    }

    /// Substitutes in a node that does not capture.
    #[cycle(substituting)]
    fn calm_node(
        &mut self,
        id: NodeId,
        var: u32,
        with: &Term,
        put: NodeId,
        free: &[bool],
        notes: &mut Vec<Option<NodeId>>,
    ) -> Result<NodeId, AllocError>
        requires within { id < length free.now }
        requires free { get_or free.now id false ≡ true }
        requires term { Stands self.old put (tree_of_term (term_of with.now)) }
        requires small { (t : Tree) → tree_at self.old id ≡ Some t → IsSmall (term_of with.now) t }
        requires ready { IsReady
            (subst_tree var (term_of with.now)) var self.old free.now notes.old.items }
        requires calm { (n : NodeValue) → slice_get self.old id ≡ Some n
            → IsCalm (term_of with.now) (bound_by n) }
        ensures begins { Begins self.old self.new }
        ensures ready { OnOk result
            (IsReady (subst_tree var (term_of with.now)) var self.new free.now notes.new.items) }
        ensures moves { IfOk result (λ r. Moves (subst_tree var (term_of with.now)) self.new id r) }
    {
        match self.leaf(id) {
            Some(flag) => self.put_for(flag, with, put),
            None => self.substituted_parts(id, var, with, put, free, notes),
        }
    }

    #[cycle(substituting)]
    fn substituted_parts(
        &mut self,
        id: NodeId,
        var: u32,
        with: &Term,
        put: NodeId,
        free: &[bool],
        notes: &mut Vec<Option<NodeId>>,
    ) -> Result<NodeId, AllocError>
        requires within { id < length free.now }
        requires free { get_or free.now id false ≡ true }
        requires term { Stands self.old put (tree_of_term (term_of with.now)) }
        requires small { (t : Tree) → tree_at self.old id ≡ Some t → IsSmall (term_of with.now) t }
        requires ready { IsReady
            (subst_tree var (term_of with.now)) var self.old free.now notes.old.items }
        requires calm { (n : NodeValue) → slice_get self.old id ≡ Some n
            → IsCalm (term_of with.now) (bound_by n) }
        requires inner { (n : NodeValue) → slice_get self.old id ≡ Some n → variable_of n ≡ None }
        ensures begins { Begins self.old self.new }
        ensures ready { OnOk result
            (IsReady (subst_tree var (term_of with.now)) var self.new free.now notes.new.items) }
        ensures moves { IfOk result (λ r. Moves (subst_tree var (term_of with.now)) self.new id r) }
    {
        let (first, second, third) = self.parts(id);
        let a = self.substituted_part(first, var, with, put, free, notes)?;
        let b = self.substituted_part(second, var, with, put, free, notes)?;
        let c = self.substituted_part(third, var, with, put, free, notes)?;
        self.join_over(id, a, b, c)
    }

    /// Substitutes in a binder that captures.
    #[cycle(substituting)]
    fn captured_node(
        &mut self,
        id: NodeId,
        bound: u32,
        body: NodeId,
        var: u32,
        with: &Term,
        put: NodeId,
    ) -> Result<NodeId, AllocError>
        requires within { id < length self.old }
        requires free { (t : Tree) → tree_at self.old id ≡ Some t → is_free_tree var t ≡ true }
        requires term { Stands self.old put (tree_of_term (term_of with.now)) }
        requires small { (t : Tree) → tree_at self.old id ≡ Some t → IsSmall (term_of with.now) t }
        requires binder { (n : NodeValue) → slice_get self.old id ≡ Some n
            → binder_of n ≡ Some (bound, body) }
        requires occurs { occurs_in_term bound (term_of with.now) ≡ true }
        ensures begins { Begins self.old self.new }
        ensures moves { IfOk result (λ r. Moves (subst_tree var (term_of with.now)) self.new id r) }
    {
        let _node = self.node(id);
        let (number, inner) = self.captured(id, bound, body, var, with, put)?;
        self.join_binder(id, number, inner)
    }

    /// Returns the fresh variable of a binder that captures, and the node of its body after
    /// renaming and substitution.
    #[cycle(substituting)]
    fn captured(
        &mut self,
        id: NodeId,
        bound: u32,
        body: NodeId,
        var: u32,
        with: &Term,
        put: NodeId,
    ) -> Result<(u32, NodeId), AllocError>
        requires within { id < length self.old }
        requires term { Stands self.old put (tree_of_term (term_of with.now)) }
        requires small { (t : Tree) → tree_at self.old id ≡ Some t → IsSmall (term_of with.now) t }
        requires binder { (n : NodeValue) → slice_get self.old id ≡ Some n
            → binder_of n ≡ Some (bound, body) }
        ensures begins { Begins self.old self.new }
        ensures number { IfOk result (λ r. (f : PlainForm) → Stands self.old body (Tree.formula f)
            → r.0 ≡ fresh f (term_of with.now)) }
        ensures inner { IfOk result (λ r. (f : PlainForm) → Stands self.old body (Tree.formula f)
            → Stands self.new r.1
            (Tree.formula
            (subst var (term_of with.now) (renamed bound (fresh f (term_of with.now)) f)))) }
    {
        let _node = self.node(id);
        let number = self.fresh_number(body, with)?;
        let renamed = self.rename(body, bound, number)?;
        let inner = self.substituted_anew(renamed, var, with, put)?;
        Ok((number, inner))
    }

    /// Returns the variable that the node binds, and its body, if the binder would capture a
    /// variable of the term.
    fn capturing(&self, id: NodeId, with: &Term) -> Option<(u32, NodeId)>
        requires { id < length self.now }
        ensures some { IfSome result (λ b. (occurs_in_term b.0 (term_of with.now) ≡ true)
            × ((n : NodeValue) → slice_get self.now id ≡ Some n → binder_of n ≡ Some (b.0, b.1))) }
        ensures none { IfNone result ((n : NodeValue) → slice_get self.now id ≡ Some n
            → IsCalm (term_of with.now) (bound_by n)) }
    {
        match self.node(id).binder_of() {
            Some((bound, body)) => if with.occurs(bound) {
                Some((bound, body))
            } else {
                None
            },
            None => None,
        }
    }

    /// Returns the node that replaces a variable: the term, or 0 or false if the term is of the
    /// other kind.
    fn put_for(&mut self, flag: bool, with: &Term, put: NodeId) -> Result<NodeId, AllocError>
        requires { Stands self.old put (tree_of_term (term_of with.now)) }
        ensures begins { Begins self.old self.new }
        ensures tree { IfOk result (λ r. Stands self.new r (put_tree flag (term_of with.now))) }
    {
        match with {
            Term::Truth(_) => if flag {
                Ok(put)
            } else {
                self.join(Node::Const(Ext::zero()))
            },
            Term::Num(_) => if flag {
                self.join(Node::Truth(false))
            } else {
                Ok(put)
            },
        }
    }

    fn join_binder(&mut self, id: NodeId, number: u32, body: NodeId) -> Result<NodeId, AllocError>
        requires within { id < length self.old }
        requires fits { (n : NodeValue) → slice_get self.old id ≡ Some n
            → IsFitting self.old (with_binder n number body) }
        ensures begins { Begins self.old self.new }
        ensures tree { IfOk result (λ r. (n : NodeValue) (t : Tree) → slice_get self.old id ≡ Some n
            → assembled (tree_at self.old) (with_binder n number body) ≡ Some t
            → Stands self.new r t) }
    {
        // Makes the type known to the proof.
        let _known: Option<Ext> = None;
        let next = self.node(id).with_binder(number, body);
        self.join(next)
    }

    /// Returns the least number from 1,048,576 on that occurs neither in the body nor in the term.
    fn fresh_number(&self, body: NodeId, with: &Term) -> Result<u32, AllocError>
        requires form { IsFormula self.now body }
        requires small { (f : PlainForm) → Stands self.now body (Tree.formula f)
            → nodes f + nodes_in_term (term_of with.now) < 2 ^ 31 }
        ensures { IfOk result (λ z. (f : PlainForm) → Stands self.now body (Tree.formula f)
            → z ≡ fresh f (term_of with.now)) }
    {
        let tree = self.small_tree(body)?;
        self.least_number(body, &tree, with)
    }

    /// Returns the least number from 1,048,576 on that occurs neither in the body nor in the term.
    /// `tree` is the tree of the body, if it was built.
    fn least_number(
        &self,
        body: NodeId,
        tree: &Option<Form>,
        with: &Term,
    ) -> Result<u32, AllocError>
        requires form { IsFormula self.now body }
        requires tree { IfSome tree.now (λ f. Stands self.now body (Tree.formula (form_of f))) }
        requires small { (f : PlainForm) → Stands self.now body (Tree.formula f)
            → nodes f + nodes_in_term (term_of with.now) < 2 ^ 31 }
        ensures { IfOk result (λ z. (f : PlainForm) → Stands self.now body (Tree.formula f)
            → z ≡ fresh f (term_of with.now)) }
    {
        let mut number = 1_048_576;
        while self.is_taken(number, body, tree, with)? {
            number += 1;
        }
        Ok(number)
    }

    /// Returns the tree of a node if it has few nodes. A search in a tree ends at the first
    /// occurrence and visits no other nodes of the graph.
    fn small_tree(&self, id: NodeId) -> Result<Option<Form>, AllocError>
        requires { IsFormula self.now id }
        ensures { IfOk result (λ tree.
            IfSome tree (λ f. Stands self.now id (Tree.formula (form_of f)))) }
    {
        if self.nodes(id) > FEW_NODES {
            return Ok(None);
        }
        Ok(Some(self.tree(id)?))
    }

    fn is_taken(
        &self,
        number: u32,
        body: NodeId,
        tree: &Option<Form>,
        with: &Term,
    ) -> Result<bool, AllocError>
        requires form { IsFormula self.now body }
        requires tree { IfSome tree.now (λ f. Stands self.now body (Tree.formula (form_of f))) }
        ensures { IfOk result (λ b. (f : PlainForm) → Stands self.now body (Tree.formula f)
            → b ≡ (occurs number f || occurs_in_term number (term_of with.now))) }
    {
        let inside = self.in_body(number, body, tree)?;
        Ok(inside || with.occurs(number))
    }

    fn in_body(&self, number: u32, body: NodeId, tree: &Option<Form>) -> Result<bool, AllocError>
        requires form { IsFormula self.now body }
        requires tree { IfSome tree.now (λ f. Stands self.now body (Tree.formula (form_of f))) }
        ensures { IfOk result (λ b. (f : PlainForm) → Stands self.now body (Tree.formula f)
            → b ≡ occurs number f) }
    {
        match tree {
            Some(form) => Ok(form.occurs(number)),
            None => self.occurs(body, number),
        }
    }
}
