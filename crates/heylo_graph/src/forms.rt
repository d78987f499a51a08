//! Reading trees from a graph. Boxes are made in separate calls, so that each level of a deep tree
//! needs little stack.

ghost use Rattle.std.specs.Prelude.{◌≡◌, ◌<◌, length, slice_get, Some, IfOk};
ghost use Rattle.heylo_formula.specs.PlainTrees.{form_of, cond_of, term_of};
ghost use Rattle.heylo_formula.specs.Substitution as Put;
ghost use Rattle.heylo_graph.specs.Trees.{Tree, tree_of_term};
ghost use Rattle.heylo_graph.specs.Nodes.{IsFormula, Stands};
ghost use Rattle.heylo_graph.specs.Parts.{first, second, third};
ghost use Rattle.heylo_graph.specs.internal.Tables.{IsBefore, Reads, ReadsCond, ReadsForm};

use crate::graphs::Graph;
use crate::nodes::{Node, NodeId};
use heylo_formula::{Cond, Form, Term};
use heyvl_num::Ext;
use std::alloc::AllocError;

impl Graph {
    /// Returns the form of a node. A node that occurs several times is copied each time.
    pub fn tree(&self, id: NodeId) -> Result<Form, AllocError>
        requires { IsFormula self.now id }
        ensures { IfOk result (λ form. Stands self.now id (Tree.formula (form_of form))) }
    {
        let term = self.read(id)?;
        Ok(as_form(term))
    }

    /// Returns the node with a number. Its children have smaller numbers.
    fn node_before(&self, id: NodeId) -> &Node
        requires { id < length self.now }
        ensures node { slice_get self.now id ≡ Some result.now }
        ensures first { IsBefore (first result.now) id }
        ensures second { IsBefore (second result.now) id }
        ensures third { IsBefore (third result.now) id }
    {
        self.node(id)
    }

    /// Returns the form or the condition of a node.
    #[cycle(reading)]
    fn read(&self, id: NodeId) -> Result<Term, AllocError>
        requires { id < length self.now }
        ensures { IfOk result (λ t. Reads self.now id (tree_of_term (term_of t))) }
    {
        match self.node_before(id) {
            Node::Const(v) => Ok(Term::Num(Form::Const(*v))),
            Node::Var(x) => Ok(Term::Num(Form::Var(*x))),
            Node::Sum(a, b) => {
                let (left, right) = self.both_forms(*a, *b)?;
                Ok(Term::Num(Form::Sum(left, right)))
            }
            Node::Diff(a, b) => {
                let (left, right) = self.both_forms(*a, *b)?;
                Ok(Term::Num(Form::Diff(left, right)))
            }
            Node::Cut(a, b) => {
                let (left, right) = self.both_forms(*a, *b)?;
                Ok(Term::Num(Form::Cut(left, right)))
            }
            Node::Scale(w, a) => Ok(Term::Num(Form::Scale(*w, self.form_boxed(*a)?))),
            Node::Product(a, b, span) => {
                let (left, right) = self.both_forms(*a, *b)?;
                Ok(Term::Num(Form::Product(left, right, *span)))
            }
            Node::Min(a, b) => {
                let (left, right) = self.both_forms(*a, *b)?;
                Ok(Term::Num(Form::Min(left, right)))
            }
            Node::Max(a, b) => {
                let (left, right) = self.both_forms(*a, *b)?;
                Ok(Term::Num(Form::Max(left, right)))
            }
            Node::Imply(a, b) => {
                let (left, right) = self.both_forms(*a, *b)?;
                Ok(Term::Num(Form::Imply(left, right)))
            }
            Node::CoImply(a, b) => {
                let (left, right) = self.both_forms(*a, *b)?;
                Ok(Term::Num(Form::CoImply(left, right)))
            }
            Node::Validate(a) => Ok(Term::Num(Form::Validate(self.form_boxed(*a)?))),
            Node::CoValidate(a) => Ok(Term::Num(Form::CoValidate(self.form_boxed(*a)?))),
            Node::Embed(g) => Ok(Term::Num(Form::Embed(self.cond_boxed(*g)?))),
            Node::Iverson(g) => Ok(Term::Num(Form::Iverson(self.cond_boxed(*g)?))),
            Node::Select(g, a, b) => {
                let test = self.cond_boxed(*g)?;
                let (left, right) = self.both_forms(*a, *b)?;
                Ok(Term::Num(Form::Select(test, left, right)))
            }
            Node::Bind(up, y, name, ty, a) => Ok(Term::Num(Form::Bind(
                *up,
                *y,
                *name,
                *ty,
                self.form_boxed(*a)?,
            ))),
            Node::Truth(b) => Ok(Term::Truth(Cond::Const(*b))),
            Node::Flag(x) => Ok(Term::Truth(Cond::Var(*x))),
            Node::Not(g) => Ok(Term::Truth(Cond::Not(self.cond_boxed(*g)?))),
            Node::And(g, h) => {
                let (left, right) = self.both_conds(*g, *h)?;
                Ok(Term::Truth(Cond::And(left, right)))
            }
            Node::Or(g, h) => {
                let (left, right) = self.both_conds(*g, *h)?;
                Ok(Term::Truth(Cond::Or(left, right)))
            }
            Node::Same(g, h) => {
                let (left, right) = self.both_conds(*g, *h)?;
                Ok(Term::Truth(Cond::Same(left, right)))
            }
            Node::Le(a, b) => {
                let (left, right) = self.both_forms(*a, *b)?;
                Ok(Term::Truth(Cond::Le(left, right)))
            }
            Node::Lt(a, b) => {
                let (left, right) = self.both_forms(*a, *b)?;
                Ok(Term::Truth(Cond::Lt(left, right)))
            }
            Node::EqNum(a, b) => {
                let (left, right) = self.both_forms(*a, *b)?;
                Ok(Term::Truth(Cond::EqNum(left, right)))
            }
            Node::Ite(g, h, k) => {
                let test = self.cond_boxed(*g)?;
                let (left, right) = self.both_conds(*h, *k)?;
                Ok(Term::Truth(Cond::Ite(test, left, right)))
            }
        }
    }

    #[cycle(reading)]
    #[tactic(auto, using(crate::proofs::Readings::reads_form, crate::proofs::Readings::reads_cond))]
    #[inline(never)]
    fn form_boxed(&self, id: NodeId) -> Result<Box<Form>, AllocError>
        requires { id < length self.now }
        ensures { IfOk result (λ t. ReadsForm self.now id (form_of t.value)) }
    {
        let term = self.read(id)?;
        Ok(Box::new(self.alloc(), as_form(term))?)
    }

    #[cycle(reading)]
    #[tactic(auto, using(crate::proofs::Readings::reads_form, crate::proofs::Readings::reads_cond))]
    #[inline(never)]
    fn both_forms(&self, left: NodeId, right: NodeId) -> Result<(Box<Form>, Box<Form>), AllocError>
        requires left { left < length self.now }
        requires right { right < length self.now }
        ensures left { IfOk result (λ t. ReadsForm self.now left (form_of t.0.value)) }
        ensures right { IfOk result (λ t. ReadsForm self.now right (form_of t.1.value)) }
    {
        let first = self.form_boxed(left)?;
        Ok((first, self.form_boxed(right)?))
    }

    #[cycle(reading)]
    #[tactic(auto, using(crate::proofs::Readings::reads_form, crate::proofs::Readings::reads_cond))]
    #[inline(never)]
    fn cond_boxed(&self, id: NodeId) -> Result<Box<Cond>, AllocError>
        requires { id < length self.now }
        ensures { IfOk result (λ t. ReadsCond self.now id (cond_of t.value)) }
    {
        let term = self.read(id)?;
        Ok(Box::new(self.alloc(), as_cond(term))?)
    }

    #[cycle(reading)]
    #[tactic(auto, using(crate::proofs::Readings::reads_form, crate::proofs::Readings::reads_cond))]
    #[inline(never)]
    fn both_conds(&self, left: NodeId, right: NodeId) -> Result<(Box<Cond>, Box<Cond>), AllocError>
        requires left { left < length self.now }
        requires right { right < length self.now }
        ensures left { IfOk result (λ t. ReadsCond self.now left (cond_of t.0.value)) }
        ensures right { IfOk result (λ t. ReadsCond self.now right (cond_of t.1.value)) }
    {
        let first = self.cond_boxed(left)?;
        Ok((first, self.cond_boxed(right)?))
    }
}

fn as_form(term: Term) -> Form
    ensures { form_of result ≡ Put.as_form (term_of term) }
{
    match term {
        Term::Num(form) => form,
        Term::Truth(_) => Form::Const(Ext::zero()),
    }
}

fn as_cond(term: Term) -> Cond
    ensures { cond_of result ≡ Put.as_cond (term_of term) }
{
    match term {
        Term::Truth(cond) => cond,
        Term::Num(_) => Cond::Const(false),
    }
}
