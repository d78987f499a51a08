//! The parts of a goal, prepared for evaluation; equal parts are shared.

use crate::paths::Atom;
use heylo_graph::Node;
use linear_values::Lin;
use std::alloc::Global;
use std::rc::Rc;

#[derive(Clone, Copy)]
pub(crate) enum Operation {
    /// The operator of a node. A unary operator uses only the second value.
    Of(Node),
    /// The pair of the values, of the stated bound and of the computed form.
    Ends,
}

/// The result of a part. The value None is infinity.
#[derive(Clone, Drop)]
pub(crate) enum Outcome {
    Number(Rc<Option<Lin>, Global>),
    Truth(bool),
    /// The values of the stated bound and of the computed form.
    Ends(Rc<Option<Lin>, Global>, Rc<Option<Lin>, Global>),
}

#[derive(Drop)]
#[cycle(parts)]
pub(crate) struct Part {
    pub work: Work,
    /// True only if each evaluation of the part asks a comparison of numbers.
    pub asks: bool,
}

#[derive(Drop)]
#[cycle(parts)]
pub(crate) enum Work {
    /// The result is known; nothing is asked.
    Known(Outcome),
    /// A number overflows. A binder has this work too, but no goal has binders.
    Large,
    /// A comparison: the first part if it holds, otherwise the second.
    Asks(Rc<Atom, Global>, Rc<Part, Global>, Rc<Part, Global>),
    Two(Operation, Rc<Part, Global>, Rc<Part, Global>),
    /// The second part if the first is true, otherwise the third.
    Choice(Rc<Part, Global>, Rc<Part, Global>, Rc<Part, Global>),
}
