//! Expressions.

ghost use Rattle.heyvl_syntax.specs.Expressions.{expression, expressions};
ghost use Rattle.std.specs.Prelude.{◌≡◌, IfOk};

use crate::copies::in_box;
use crate::{BinaryOp, Lit, TypeName, UnaryOp};
use heyvl_places::{Name, Span};
use std::alloc::{AllocError, Global};

/// An expression, including its parentheses. Each node has its place: that of the operator for a
/// binary operator, and otherwise from the first byte of the node to the end of its last token.
pub enum Expr {
    /// A number literal.
    Number(Lit, Span),
    /// `true` or `false`.
    Truth(bool, Span),
    /// `\infty`
    Infinity(Span),
    /// A variable.
    Name(Name, Span),
    /// `(a)`
    Group(Box<Expr>, Span),
    /// `[a]`: 1 if `a` holds, otherwise 0.
    Bracket(Box<Expr>, Span),
    /// `?(a)`: infinity if `a` holds, otherwise 0.
    Embed(Box<Expr>, Span),
    /// A prefix operator with its operand.
    Unary(UnaryOp, Box<Expr>, Span),
    /// A binary operator with its operands.
    Binary(BinaryOp, Box<Expr>, Box<Expr>, Span),
    /// `ite(a, b, c)`: `b` if `a` holds, otherwise `c`.
    Choice(Box<Expr>, Box<Expr>, Box<Expr>, Span),
    /// `sup x: T. a` if the flag is true, otherwise `inf x: T. a`.
    Bound(bool, Name, TypeName, Box<Expr>, Span),
}

impl Drop for Expr {
    fn drop(self) {
        match self {
            Expr::Number(_, _) => {}
            Expr::Truth(_, _) => {}
            Expr::Infinity(_) => {}
            Expr::Name(_, _) => {}
            Expr::Group(_, _) => {}
            Expr::Bracket(_, _) => {}
            Expr::Embed(_, _) => {}
            Expr::Unary(_, _, _) => {}
            Expr::Binary(_, _, _, _) => {}
            Expr::Choice(_, _, _, _) => {}
            Expr::Bound(_, _, _, _, _) => {}
        }
    }
}

impl Expr {
    /// Returns a copy of the expression.
    pub fn copy(&self, alloc: Global) -> Result<Expr, AllocError>
        ensures { IfOk result (λ copied. expression copied ≡ expression self.now) }
    {
        match self {
            Expr::Number(number, span) => Ok(Expr::Number(*number, *span)),
            Expr::Truth(truth, span) => Ok(Expr::Truth(*truth, *span)),
            Expr::Infinity(span) => Ok(Expr::Infinity(*span)),
            Expr::Name(name, span) => Ok(Expr::Name(name.copy(alloc)?, *span)),
            Expr::Group(inner, span) => Ok(Expr::Group(in_box(alloc, inner.copy(alloc))?, *span)),
            Expr::Bracket(inner, span) => Ok(Expr::Bracket(
                in_box(alloc, inner.copy(alloc))?,
                *span,
            )),
            Expr::Embed(inner, span) => Ok(Expr::Embed(in_box(alloc, inner.copy(alloc))?, *span)),
            Expr::Unary(op, inner, span) => Ok(Expr::Unary(
                *op,
                in_box(alloc, inner.copy(alloc))?,
                *span,
            )),
            Expr::Binary(op, left, right, span) => {
                let left = in_box(alloc, left.copy(alloc))?;
                Ok(Expr::Binary(*op, left, in_box(alloc, right.copy(alloc))?, *span))
            }
            Expr::Choice(test, left, right, span) => {
                let test = in_box(alloc, test.copy(alloc))?;
                let left = in_box(alloc, left.copy(alloc))?;
                Ok(Expr::Choice(test, left, in_box(alloc, right.copy(alloc))?, *span))
            }
            Expr::Bound(up, name, ty, inner, span) => {
                let name = name.copy(alloc)?;
                Ok(Expr::Bound(*up, name, *ty, in_box(alloc, inner.copy(alloc))?, *span))
            }
        }
    }

    /// Returns the expression in a box.
    pub fn boxed(self, alloc: Global) -> Result<Box<Expr>, AllocError>
        ensures { IfOk result (λ boxed. boxed.value ≡ self) }
    {
        Ok(Box::new(alloc, self)?)
    }

    /// Returns copies of the expressions, in their order.
    pub fn copy_all(alloc: Global, all: &[Expr]) -> Result<Vec<Expr>, AllocError>
        ensures { IfOk result (λ copied. expressions copied.items ≡ expressions all.now) }
    {
        let mut copied = Vec::with_capacity(alloc, all.len())?;
        for one in all {
            copied.push(one.copy(alloc)?)?;
        }
        Ok(copied)
    }
}
