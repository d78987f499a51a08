//! Acts: the statements of typed procedures.

use heylo_formula::{Cond, Form, Term, Ty};
use heyvl_num::Frac;
use heyvl_places::{CheckKind, Span};

/// An act. Variables, procedures and loops are numbers. Each act has the place of its statement.
#[cycle(acts)]
pub enum Act {
    /// Assigns the value of the term to the variable.
    Set(u32, Term, Span),
    /// Assigns one of the alternatives to the variable, each with its weight as probability. The
    /// weights are nonnegative, and their sum is 1.
    Draw(u32, Vec<(Frac, Term)>, Span),
    /// Assigns true to the variable, a Bool, with the smaller of the form's value and 1 as
    /// probability, and false with the rest. The form is a UInt or UReal without binders, and
    /// without numeric variables outside conditions.
    Toss(u32, Form, Span),
    /// Assigns any value of its type to the variable. The flag is true if it is upward, so that the
    /// largest outcome counts.
    Any(u32, bool, Ty, Span),
    /// Collects the value of the formula.
    Reward(Form, Span),
    /// Runs the block of the first arm whose guard holds, or the last block if no guard holds.
    If(Vec<(Cond, Vec<Act>)>, Vec<Act>, Span),
    /// Runs one of two blocks. The flag is true if it is upward, so that the larger outcome counts.
    Pick(bool, Vec<Act>, Vec<Act>, Span),
    /// `assert`, `assume`, `coassert` or `coassume` of a formula.
    Check(CheckKind, Form, Span),
    /// `covalidate` if the flag is true, otherwise `validate`.
    Validate(bool, Span),
    /// A loop.
    Loop(Box<LoopAct>),
    /// A call: the targets, the procedure and the arguments.
    Call(Vec<u32>, u32, Vec<Term>, Span),
}

impl Drop for Act {
    #[cycle(acts_drop)]
    fn drop(self) {
        match self {
            Act::Set(_, _, _) => {}
            Act::Draw(_, _, _) => {}
            Act::Toss(_, _, _) => {}
            Act::Any(_, _, _, _) => {}
            Act::Reward(_, _) => {}
            Act::If(_, _, _) => {}
            Act::Pick(_, _, _, _) => {}
            Act::Check(_, _, _) => {}
            Act::Validate(_, _) => {}
            Act::Loop(_) => {}
            Act::Call(_, _, _, _) => {}
        }
    }
}

/// A loop.
#[cycle(acts)]
pub struct LoopAct {
    /// The number of the loop, counted from 1 in the order of the text. An outer loop precedes the
    /// loops in its body.
    pub number: u32,
    /// The number of copies of the body in the encoding, from 1 to 16.
    pub k: u32,
    /// The invariant.
    pub inv: Form,
    /// The guard. The loop continues while it holds.
    pub guard: Cond,
    /// The body.
    pub body: Vec<Act>,
    /// The step, which is positive, and the ranking, if there is one.
    pub rank: Option<(Frac, Form)>,
    /// The variables that are visible at the loop.
    pub scope: Vec<u32>,
    /// The place, from the first annotation of the loop on.
    pub span: Span,
}

impl Drop for LoopAct {
    #[cycle(acts_drop)]
    fn drop(self) {
        let LoopAct {
            number: _,
            k: _,
            inv: _,
            guard: _,
            body: _,
            rank: _,
            scope: _,
            span: _,
        } = self;
    }
}
