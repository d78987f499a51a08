//! Nodes of a graph.

ghost use Rattle.std.specs.Prelude.{◌≡◌};
ghost use Rattle.heylo_graph.specs.Parts.{first, second, third, with_parts, variable_of, bound_by};
ghost use Rattle.heylo_graph.specs.Parts.{binder_of, is_flag, with_variable, with_binder};

use heylo_formula::Ty;
use heyvl_num::{Ext, Frac};
use heyvl_places::Span;
use std::marker::Model;

/// The number of a node in a graph: its index in the list, counted from 0.
#[derive(Clone, Copy, Debug, PartialEq, Eq, Hash)]
pub struct NodeId {
    index: usize,
}

impl Model for NodeId {
    ghost use Rattle.std.specs.Prelude.{ℕ};

    ghost Value = { ℕ };

    ghost view = { λ id. id.index };

    ghost inverse = { λ n. record { index = n } };
}

impl NodeId {
    /// Returns the number of the node at `index`.
    pub fn new(index: usize) -> NodeId
        ensures { result ≡ index }
    {
        NodeId { index }
    }

    /// Returns the index.
    pub fn index(self) -> usize
        ensures { result ≡ self }
    {
        self.index
    }
}

/// A node of a form or of a condition, with the numbers of its children in place of boxes.
#[derive(Clone, Copy, Debug, PartialEq, Eq, Hash)]
pub enum Node {
    /// A fraction or infinity.
    Const(Ext),
    /// The value of a numeric variable.
    Var(u32),
    Sum(NodeId, NodeId),
    /// The plain difference of integers, which may be negative.
    Diff(NodeId, NodeId),
    /// The truncated difference: 0 if the second operand is larger.
    Cut(NodeId, NodeId),
    Scale(Frac, NodeId),
    /// The product, with the place of its operator in the text.
    Product(NodeId, NodeId, Span),
    Min(NodeId, NodeId),
    Max(NodeId, NodeId),
    /// Implication (Goedel's): infinity if the first operand is at most the second, otherwise the
    /// second.
    Imply(NodeId, NodeId),
    /// Coimplication: 0 if the first operand is at least the second, otherwise the second.
    CoImply(NodeId, NodeId),
    /// Infinity if the operand is infinite, otherwise 0.
    Validate(NodeId),
    /// 0 if the operand is 0, otherwise infinity.
    CoValidate(NodeId),
    /// Infinity if the condition holds, otherwise 0.
    Embed(NodeId),
    /// 1 if the condition holds, otherwise 0.
    Iverson(NodeId),
    /// The second child if the first, a condition, holds, otherwise the third.
    Select(NodeId, NodeId, NodeId),
    /// A binder: whether it is a supremum (otherwise it is an infimum), the variable that it binds,
    /// the variable after which it is named, the type of the bound variable, and the body.
    Bind(bool, u32, u32, Ty, NodeId),
    /// A constant condition.
    Truth(bool),
    /// The value of a Boolean variable.
    Flag(u32),
    Not(NodeId),
    And(NodeId, NodeId),
    Or(NodeId, NodeId),
    /// Both conditions hold, or neither does.
    Same(NodeId, NodeId),
    Le(NodeId, NodeId),
    Lt(NodeId, NodeId),
    /// The two numbers are equal.
    EqNum(NodeId, NodeId),
    /// The second condition if the first holds, otherwise the third.
    Ite(NodeId, NodeId, NodeId),
}

impl Node {
    /// Returns the first child.
    pub fn first(&self) -> Option<NodeId>
        ensures { result ≡ first self.now }
    {
        match self {
            Node::Sum(a, _)
            | Node::Diff(a, _)
            | Node::Cut(a, _)
            | Node::Scale(_, a)
            | Node::Product(a, _, _)
            | Node::Min(a, _)
            | Node::Max(a, _)
            | Node::Imply(a, _)
            | Node::CoImply(a, _)
            | Node::Validate(a)
            | Node::CoValidate(a)
            | Node::Embed(a)
            | Node::Iverson(a)
            | Node::Select(a, _, _)
            | Node::Bind(_, _, _, _, a)
            | Node::Not(a)
            | Node::And(a, _)
            | Node::Or(a, _)
            | Node::Same(a, _)
            | Node::Le(a, _)
            | Node::Lt(a, _)
            | Node::EqNum(a, _)
            | Node::Ite(a, _, _) => Some(*a),
            _ => None,
        }
    }

    /// Returns the second child.
    pub fn second(&self) -> Option<NodeId>
        ensures { result ≡ second self.now }
    {
        match self {
            Node::Sum(_, b)
            | Node::Diff(_, b)
            | Node::Cut(_, b)
            | Node::Product(_, b, _)
            | Node::Min(_, b)
            | Node::Max(_, b)
            | Node::Imply(_, b)
            | Node::CoImply(_, b)
            | Node::Select(_, b, _)
            | Node::And(_, b)
            | Node::Or(_, b)
            | Node::Same(_, b)
            | Node::Le(_, b)
            | Node::Lt(_, b)
            | Node::EqNum(_, b)
            | Node::Ite(_, b, _) => Some(*b),
            _ => None,
        }
    }

    /// Returns the third child.
    pub fn third(&self) -> Option<NodeId>
        ensures { result ≡ third self.now }
    {
        match self {
            Node::Select(_, _, c) | Node::Ite(_, _, c) => Some(*c),
            _ => None,
        }
    }

    /// Returns the node with the given children, as many as it has; the others are ignored.
    pub fn with_parts(&self, a: NodeId, b: NodeId, c: NodeId) -> Node
        ensures { result ≡ with_parts self.now a b c }
    {
        match self {
            Node::Sum(_, _) => Node::Sum(a, b),
            Node::Diff(_, _) => Node::Diff(a, b),
            Node::Cut(_, _) => Node::Cut(a, b),
            Node::Scale(w, _) => Node::Scale(*w, a),
            Node::Product(_, _, span) => Node::Product(a, b, *span),
            Node::Min(_, _) => Node::Min(a, b),
            Node::Max(_, _) => Node::Max(a, b),
            Node::Imply(_, _) => Node::Imply(a, b),
            Node::CoImply(_, _) => Node::CoImply(a, b),
            Node::Validate(_) => Node::Validate(a),
            Node::CoValidate(_) => Node::CoValidate(a),
            Node::Embed(_) => Node::Embed(a),
            Node::Iverson(_) => Node::Iverson(a),
            Node::Select(_, _, _) => Node::Select(a, b, c),
            Node::Bind(up, w, name, ty, _) => Node::Bind(*up, *w, *name, *ty, a),
            Node::Not(_) => Node::Not(a),
            Node::And(_, _) => Node::And(a, b),
            Node::Or(_, _) => Node::Or(a, b),
            Node::Same(_, _) => Node::Same(a, b),
            Node::Le(_, _) => Node::Le(a, b),
            Node::Lt(_, _) => Node::Lt(a, b),
            Node::EqNum(_, _) => Node::EqNum(a, b),
            Node::Ite(_, _, _) => Node::Ite(a, b, c),
            _ => *self,
        }
    }

    /// Returns the variable of a node that is a variable, numeric or Boolean.
    pub fn variable_of(&self) -> Option<u32>
        ensures { result ≡ variable_of self.now }
    {
        match self {
            Node::Var(x) | Node::Flag(x) => Some(*x),
            _ => None,
        }
    }

    /// Returns the variable that the node binds.
    pub fn bound_by(&self) -> Option<u32>
        ensures { result ≡ bound_by self.now }
    {
        match self {
            Node::Bind(_, x, _, _, _) => Some(*x),
            _ => None,
        }
    }

    pub(crate) fn binder_of(&self) -> Option<(u32, NodeId)>
        ensures { result ≡ binder_of self.now }
    {
        match self {
            Node::Bind(_, x, _, _, body) => Some((*x, *body)),
            _ => None,
        }
    }

    pub(crate) fn is_flag(&self) -> bool
        ensures { result ≡ is_flag self.now }
    {
        match self {
            Node::Flag(_) => true,
            _ => false,
        }
    }

    /// Returns the node with the variable `x`, if it is a variable.
    pub(crate) fn with_variable(&self, x: u32) -> Node
        ensures { result ≡ with_variable self.now x }
    {
        match self {
            Node::Var(_) => Node::Var(x),
            Node::Flag(_) => Node::Flag(x),
            _ => *self,
        }
    }

    /// Returns the node with the bound variable `x` and the body `body`, if it is a binder.
    pub(crate) fn with_binder(&self, x: u32, body: NodeId) -> Node
        ensures { result ≡ with_binder self.now x body }
    {
        match self {
            Node::Bind(up, _, name, ty, _) => Node::Bind(*up, x, *name, *ty, body),
            _ => *self,
        }
    }
}
