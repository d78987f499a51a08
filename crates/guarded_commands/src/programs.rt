//! Programs of guarded commands.

use heyvl_places::{Name, Span};
use heyvl_syntax::Expr;

/// The type of a declared variable.
#[derive(Clone, Copy, Debug, PartialEq, Eq)]
pub enum VariableType {
    /// `bool`: true or false.
    Bool,
    /// `nat`: an integer from 0 on.
    Nat,
    /// `real`: a fraction from 0 on.
    Real,
}

/// A declared variable. Its place reaches from the keyword of its type to the `;`.
#[derive(Drop)]
pub struct Declaration {
    pub ty: VariableType,
    pub name: Name,
    pub span: Span,
}

/// A command. Its place reaches from its first byte to the end of its last token.
#[cycle(commands)]
#[derive(Drop)]
pub enum Command {
    /// `skip;`
    Skip(Span),
    /// `x := e;`
    Assign(Name, Expr, Span),
    /// `tick(e);`
    Tick(Expr, Span),
    /// `if (b) { .. } else { .. }`
    If(Expr, Vec<Command>, Vec<Command>, Span),
    /// `{ .. } [p] { .. }`: the first block with probability `p`, otherwise the second.
    Mix(Expr, Vec<Command>, Vec<Command>, Span),
    /// `{ .. } [] { .. }`: one of the two blocks, chosen by the scheduler.
    Choice(Vec<Command>, Vec<Command>, Span),
    /// `while (b) [i] { .. }`, with the guard and then the invariant.
    While(Expr, Expr, Vec<Command>, Span),
}

/// A program: its variables, its pre, its post and its commands.
#[derive(Drop)]
pub struct Program {
    pub declarations: Vec<Declaration>,
    pub pre: Expr,
    pub post: Expr,
    pub body: Vec<Command>,
}
