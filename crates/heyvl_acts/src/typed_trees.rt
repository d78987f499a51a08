//! Typed trees: a file in which names are numbers and expressions are forms.

use crate::acts::Act;
use heylo_formula::{Form, Ty};
use heyvl_places::{Name, Span};

/// A file without errors, with numbers in place of names.
pub struct Typed {
    /// The procedures, in the order of the text.
    pub procs: Vec<TProc>,
}

impl Drop for Typed {
    fn drop(self) {
        let Typed { procs: _ } = self;
    }
}

/// A procedure.
pub struct TProc {
    pub name: Name,
    /// True for a coproc, whose pre is an upper bound, and false for a proc.
    pub co: bool,
    /// True for a proc with `@wlp`.
    pub weak: bool,
    /// The inputs, then the outputs, then the locals in the order of their declarations, then the
    /// variables of the quantifiers of the post clauses in the order of the text.
    pub vars: Vec<VarInfo>,
    /// The number of inputs, which are the first variables.
    pub inputs: u32,
    /// The number of outputs, which are the next variables.
    pub outputs: u32,
    /// A formula over the inputs.
    pub pre: Form,
    /// A formula over the inputs and outputs.
    pub post: Form,
    /// The acts of the body, if there is one.
    pub body: Option<Vec<Act>>,
    /// The number of loops of the body.
    pub loops: u32,
    /// The place, from the note on, or from the first keyword if there is no note.
    pub span: Span,
}

impl Drop for TProc {
    fn drop(self) {
        let TProc {
            name: _,
            co: _,
            weak: _,
            vars: _,
            inputs: _,
            outputs: _,
            pre: _,
            post: _,
            body: _,
            loops: _,
            span: _,
        } = self;
    }
}

/// A variable: its name and its type.
pub struct VarInfo {
    pub name: Name,
    pub ty: Ty,
}

impl Drop for VarInfo {
    fn drop(self) {
        let VarInfo { name: _, ty: _ } = self;
    }
}
