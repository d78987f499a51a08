//! The parser of expressions that are all of the tokens.

ghost use Rattle.heyvl_parse.specs.internal.ExpressionReaders.{only_expr};
ghost use Rattle.heyvl_parse.specs.readers.PartStops.{IsPartStop};
ghost use Rattle.heyvl_parse.specs.readers.Results.{Gives};
ghost use Rattle.heyvl_syntax.specs.Expressions.{expression};
ghost use Rattle.heyvl_syntax.specs.Grammar.{IsFull};
ghost use Rattle.std.specs.Prelude.{[], IfErr, IfOk, length, ◌<◌, ℕ};

use crate::expressions::whole;
use crate::stops::PartStop;
use heyvl_syntax::{Expr, Token};
use std::alloc::Global;

/// Reads an expression, after which no token may be left.
fn alone(alloc: Global, tokens: &[Token]) -> Result<Expr, PartStop>
    ensures value { (n : ℕ) → length tokens.now < n
        → Gives expression (λ x. []) result (only_expr n tokens.now) }
{
    let (found, rest) = whole(alloc, tokens)?;
    match rest.split_first() {
        None => Ok(found),
        Some(_) => Err(PartStop::Fault(rest.len())),
    }
}

/// Returns the expression that the tokens spell, or the least index at which no expression goes on.
pub(crate) fn spelled_expression(alloc: Global, tokens: &[Token]) -> Result<Expr, PartStop>
    ensures found { IfOk result (λ expr. IsFull (expression expr) tokens.now) }
    ensures fault { IfErr result (λ stop. IsPartStop IsFull tokens.now stop) }
{
    alone(alloc, tokens)
}
