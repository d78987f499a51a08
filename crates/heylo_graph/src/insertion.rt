//! Inserting forms and conditions into a graph.

ghost use Rattle.std.specs.Prelude.{◌≡◌, ℕ, IfOk, OnErr, OnOk};
ghost use Rattle.heylo_formula.specs.PlainTrees.{form_of, cond_of};
ghost use Rattle.heylo_graph.specs.Trees.{Tree};
ghost use Rattle.heylo_graph.specs.Nodes.{Stands, HasTree, IsNodeOf, Begins};

use crate::graphs::Graph;
use crate::nodes::{Node, NodeId};
use heylo_formula::{Cond, Form};
use heyvl_num::Ext;
use std::alloc::AllocError;

impl Graph {
    /// Inserts a form and returns its number. Its nodes that are not in the graph are appended. A
    /// form that is in the graph already adds no node and keeps its number. On an error the graph
    /// is unchanged.
    pub fn put(&mut self, form: &Form) -> Result<NodeId, AllocError>
        ensures begins { OnOk result (Begins self.old self.new) }
        ensures tree { IfOk result (λ id. Stands self.new id (Tree.formula (form_of form.now))) }
        ensures present { HasTree self.old (Tree.formula (form_of form.now))
            → OnOk result (self.new ≡ self.old) }
        ensures number { (i : ℕ) → Stands self.old i (Tree.formula (form_of form.now))
            → IfOk result (λ id. id ≡ i) }
        ensures err { OnErr result (self.new ≡ self.old) }
    {
        let len = self.len();
        let result = self.put_form(form);
        if result.is_err() {
            self.cut(len);
        }
        result
    }

    /// Inserts a condition and returns its number, by the rules of `put`.
    pub fn put_cond(&mut self, cond: &Cond) -> Result<NodeId, AllocError>
        ensures begins { OnOk result (Begins self.old self.new) }
        ensures tree { IfOk result (λ id. Stands self.new id (Tree.condition (cond_of cond.now))) }
        ensures present { HasTree self.old (Tree.condition (cond_of cond.now))
            → OnOk result (self.new ≡ self.old) }
        ensures number { (i : ℕ) → Stands self.old i (Tree.condition (cond_of cond.now))
            → IfOk result (λ id. id ≡ i) }
        ensures err { OnErr result (self.new ≡ self.old) }
    {
        let len = self.len();
        let result = self.put_part(cond);
        if result.is_err() {
            self.cut(len);
        }
        result
    }

    /// Inserts a form. On an error some nodes may have been appended.
    #[cycle(putting)]
    pub(crate) fn put_form(&mut self, form: &Form) -> Result<NodeId, AllocError>
        ensures begins { Begins self.old self.new }
        ensures tree { IfOk result (λ id. Stands self.new id (Tree.formula (form_of form.now))) }
        ensures present { HasTree self.old (Tree.formula (form_of form.now))
            → OnOk result (self.new ≡ self.old) }
        ensures number { (i : ℕ) → Stands self.old i (Tree.formula (form_of form.now))
            → IfOk result (λ id. id ≡ i) }
    {
        // Makes the type known to the proof.
        let _known: Option<Ext> = None;
        let node = self.formula_node(form)?;
        self.join(node)
    }

    /// Inserts the children of a form and returns its node.
    #[cycle(putting)]
    #[tactic(auto, using(crate::proofs::NodesOverParts::nodes_over_parts, crate::proofs::Trees::stands_longer))]
    fn formula_node(&mut self, form: &Form) -> Result<Node, AllocError>
        ensures begins { Begins self.old self.new }
        ensures node { IfOk result (λ n. IsNodeOf self.new n (Tree.formula (form_of form.now))) }
        ensures present { HasTree self.old (Tree.formula (form_of form.now))
            → OnOk result (self.new ≡ self.old) }
    {
        match form {
            Form::Const(v) => Ok(Node::Const(*v)),
            Form::Var(x) => Ok(Node::Var(*x)),
            Form::Sum(a, b) => {
                let (left, right) = self.put_both(a, b)?;
                Ok(Node::Sum(left, right))
            }
            Form::Diff(a, b) => {
                let (left, right) = self.put_both(a, b)?;
                Ok(Node::Diff(left, right))
            }
            Form::Cut(a, b) => {
                let (left, right) = self.put_both(a, b)?;
                Ok(Node::Cut(left, right))
            }
            Form::Scale(w, a) => {
                let part = self.put_form(a)?;
                Ok(Node::Scale(*w, part))
            }
            Form::Product(a, b, span) => {
                let (left, right) = self.put_both(a, b)?;
                Ok(Node::Product(left, right, *span))
            }
            Form::Min(a, b) => {
                let (left, right) = self.put_both(a, b)?;
                Ok(Node::Min(left, right))
            }
            Form::Max(a, b) => {
                let (left, right) = self.put_both(a, b)?;
                Ok(Node::Max(left, right))
            }
            Form::Imply(a, b) => {
                let (left, right) = self.put_both(a, b)?;
                Ok(Node::Imply(left, right))
            }
            Form::CoImply(a, b) => {
                let (left, right) = self.put_both(a, b)?;
                Ok(Node::CoImply(left, right))
            }
            Form::Validate(a) => {
                let part = self.put_form(a)?;
                Ok(Node::Validate(part))
            }
            Form::CoValidate(a) => {
                let part = self.put_form(a)?;
                Ok(Node::CoValidate(part))
            }
            Form::Embed(g) => {
                let part = self.put_part(g)?;
                Ok(Node::Embed(part))
            }
            Form::Iverson(g) => {
                let part = self.put_part(g)?;
                Ok(Node::Iverson(part))
            }
            Form::Select(g, a, b) => {
                let (test, left, right) = self.put_select(g, a, b)?;
                Ok(Node::Select(test, left, right))
            }
            Form::Bind(up, y, name, ty, a) => {
                let part = self.put_form(a)?;
                Ok(Node::Bind(*up, *y, *name, *ty, part))
            }
        }
    }

    /// Inserts a condition. On an error some nodes may have been appended.
    #[cycle(putting)]
    pub(crate) fn put_part(&mut self, cond: &Cond) -> Result<NodeId, AllocError>
        ensures begins { Begins self.old self.new }
        ensures tree { IfOk result (λ id. Stands self.new id (Tree.condition (cond_of cond.now))) }
        ensures present { HasTree self.old (Tree.condition (cond_of cond.now))
            → OnOk result (self.new ≡ self.old) }
        ensures number { (i : ℕ) → Stands self.old i (Tree.condition (cond_of cond.now))
            → IfOk result (λ id. id ≡ i) }
    {
        // Makes the type known to the proof.
        let _known: Option<Ext> = None;
        let node = self.condition_node(cond)?;
        self.join(node)
    }

    /// Inserts the children of a condition and returns its node.
    #[cycle(putting)]
    #[tactic(auto, using(crate::proofs::NodesOverParts::nodes_over_parts, crate::proofs::Trees::stands_longer))]
    fn condition_node(&mut self, cond: &Cond) -> Result<Node, AllocError>
        ensures begins { Begins self.old self.new }
        ensures node { IfOk result (λ n. IsNodeOf self.new n (Tree.condition (cond_of cond.now))) }
        ensures present { HasTree self.old (Tree.condition (cond_of cond.now))
            → OnOk result (self.new ≡ self.old) }
    {
        match cond {
            Cond::Const(b) => Ok(Node::Truth(*b)),
            Cond::Var(x) => Ok(Node::Flag(*x)),
            Cond::Not(g) => {
                let part = self.put_part(g)?;
                Ok(Node::Not(part))
            }
            Cond::And(g, h) => {
                let (left, right) = self.put_conds(g, h)?;
                Ok(Node::And(left, right))
            }
            Cond::Or(g, h) => {
                let (left, right) = self.put_conds(g, h)?;
                Ok(Node::Or(left, right))
            }
            Cond::Same(g, h) => {
                let (left, right) = self.put_conds(g, h)?;
                Ok(Node::Same(left, right))
            }
            Cond::Le(a, b) => {
                let (left, right) = self.put_both(a, b)?;
                Ok(Node::Le(left, right))
            }
            Cond::Lt(a, b) => {
                let (left, right) = self.put_both(a, b)?;
                Ok(Node::Lt(left, right))
            }
            Cond::EqNum(a, b) => {
                let (left, right) = self.put_both(a, b)?;
                Ok(Node::EqNum(left, right))
            }
            Cond::Ite(g, h, k) => {
                let (test, left, right) = self.put_ite(g, h, k)?;
                Ok(Node::Ite(test, left, right))
            }
        }
    }

    #[cycle(putting)]
    #[tactic(auto, using(crate::proofs::NodesOverParts::nodes_over_parts, crate::proofs::Trees::stands_longer))]
    fn put_both(&mut self, a: &Form, b: &Form) -> Result<(NodeId, NodeId), AllocError>
        ensures begins { Begins self.old self.new }
        ensures left { IfOk result (λ ids. Stands self.new ids.0 (Tree.formula (form_of a.now))) }
        ensures right { IfOk result (λ ids. Stands self.new ids.1 (Tree.formula (form_of b.now))) }
        ensures present { HasTree self.old (Tree.formula (form_of a.now))
            → HasTree self.old (Tree.formula (form_of b.now)) → OnOk result (self.new ≡ self.old) }
    {
        let left = self.put_form(a)?;
        let right = self.put_form(b)?;
        Ok((left, right))
    }

    #[cycle(putting)]
    #[tactic(auto, using(crate::proofs::NodesOverParts::nodes_over_parts, crate::proofs::Trees::stands_longer))]
    fn put_conds(&mut self, g: &Cond, h: &Cond) -> Result<(NodeId, NodeId), AllocError>
        ensures begins { Begins self.old self.new }
        ensures left { IfOk result (λ ids. Stands self.new ids.0 (Tree.condition (cond_of g.now))) }
        ensures right { IfOk result
            (λ ids. Stands self.new ids.1 (Tree.condition (cond_of h.now))) }
        ensures present { HasTree self.old (Tree.condition (cond_of g.now))
            → HasTree self.old (Tree.condition (cond_of h.now))
            → OnOk result (self.new ≡ self.old) }
    {
        let left = self.put_part(g)?;
        let right = self.put_part(h)?;
        Ok((left, right))
    }

    #[cycle(putting)]
    #[tactic(auto, using(crate::proofs::NodesOverParts::nodes_over_parts, crate::proofs::Trees::stands_longer))]
    fn put_select(
        &mut self,
        g: &Cond,
        a: &Form,
        b: &Form,
    ) -> Result<(NodeId, NodeId, NodeId), AllocError>
        ensures begins { Begins self.old self.new }
        ensures test { IfOk result (λ ids. Stands self.new ids.0 (Tree.condition (cond_of g.now))) }
        ensures left { IfOk result (λ ids. Stands self.new ids.1 (Tree.formula (form_of a.now))) }
        ensures right { IfOk result (λ ids. Stands self.new ids.2 (Tree.formula (form_of b.now))) }
        ensures present { HasTree self.old (Tree.condition (cond_of g.now))
            → HasTree self.old (Tree.formula (form_of a.now))
            → HasTree self.old (Tree.formula (form_of b.now)) → OnOk result (self.new ≡ self.old) }
    {
        let test = self.put_part(g)?;
        let (left, right) = self.put_both(a, b)?;
        Ok((test, left, right))
    }

    #[cycle(putting)]
    #[tactic(auto, using(crate::proofs::NodesOverParts::nodes_over_parts, crate::proofs::Trees::stands_longer))]
    fn put_ite(
        &mut self,
        g: &Cond,
        h: &Cond,
        k: &Cond,
    ) -> Result<(NodeId, NodeId, NodeId), AllocError>
        ensures begins { Begins self.old self.new }
        ensures test { IfOk result (λ ids. Stands self.new ids.0 (Tree.condition (cond_of g.now))) }
        ensures left { IfOk result (λ ids. Stands self.new ids.1 (Tree.condition (cond_of h.now))) }
        ensures right { IfOk result
            (λ ids. Stands self.new ids.2 (Tree.condition (cond_of k.now))) }
        ensures present { HasTree self.old (Tree.condition (cond_of g.now))
            → HasTree self.old (Tree.condition (cond_of h.now))
            → HasTree self.old (Tree.condition (cond_of k.now))
            → OnOk result (self.new ≡ self.old) }
    {
        let test = self.put_part(g)?;
        let (left, right) = self.put_conds(h, k)?;
        Ok((test, left, right))
    }
}
