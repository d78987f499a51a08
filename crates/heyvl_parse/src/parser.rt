//! The parser of whole files, and of expressions that are all of the tokens.

ghost use Rattle.heyvl_parse.specs.Files.{IsParseMemory, IsParseStop, IsThisParseStop};
ghost use Rattle.heyvl_parse.specs.declared.parser.ParseStop.TheVariants.{Memory};
ghost use Rattle.heyvl_parse.specs.Spellings.{IsExpressionFault, IsExpressionStop};
ghost use Rattle.heyvl_syntax.specs.Expressions.{Expression, expression};
ghost use Rattle.heyvl_syntax.specs.Grammar.{IsFile, IsFull};
ghost use Rattle.heyvl_syntax.specs.Procedures.{Procedure, procedures};
ghost use Rattle.heyvl_syntax.specs.Sizes.{expression_nodes};
ghost use Rattle.heyvl_syntax.specs.SourceFaults.{IsLight, IsTokenFault, IsWithinLimits};
ghost use Rattle.std.specs.Prelude.{IfErr, IfOk, List, MatchOption, MatchResult, length, ◌<◌, ◌^◌};
ghost use Rattle.std.specs.Prelude.{◌≡◌, ◌≤◌, ℕ};

use crate::expression_reader::spelled_expression;
use crate::file_reader::spelled;
use crate::limits::{crowd_at, overload_at};
use crate::stops::PartStop;
use heyvl_syntax::{Expr, File, Token};
use std::alloc::{AllocError, Global};
use thiserror::Error;

/// The error of tokens that have to spell a file or an expression.
#[derive(Debug, Drop, Error)]
pub enum ParseStop {
    /// The first error of the tokens: its number and the index of its token. It is 5 at the first
    /// token after which the load exceeds 200, 6 at the 1,025th procedure of a file, otherwise 4 at
    /// the first token with which nothing goes on, or at the number of tokens if they end too
    /// early.
    #[error("fault {0} at the token {1}")]
    Fault(u8, u32),
    /// Memory ran out.
    #[error("out of memory")]
    Memory(AllocError),
}

impl From<AllocError> for ParseStop {
    ghost from_gives = { λ error stop. stop ≡ Memory error };

    fn from(error: AllocError) -> Self {
        ParseStop::Memory(error)
    }
}

/// Returns the number and the index of the first limit that the tokens exceed, if they exceed one.
fn limit_fault(alloc: Global, tokens: &[Token]) -> Result<Option<(u8, u32)>, AllocError>
    requires { length tokens.now < 2 ^ 31 }
    ensures { IfOk result (λ fault.
        MatchOption fault (IsWithinLimits tokens.now) (λ x. IsTokenFault tokens.now x.0 x.1)) }
{
    if let Some(index) = overload_at(alloc, tokens)? {
        return Ok(Some((5, index as u32)));
    }
    match crowd_at(tokens) {
        None => Ok(None),
        Some(index) => Ok(Some((6, index as u32))),
    }
}

/// Returns the file that the tokens spell, or their first error.
fn file_or_fault(alloc: Global, tokens: &[Token]) -> Result<File, ParseStop>
    requires { length tokens.now < 2 ^ 31 }
    ensures found { IfOk result (λ file. IsWithinLimits tokens.now
        × IsFile (procedures file) tokens.now) }
    ensures fault { IfErr result (λ stop. IsParseStop tokens.now stop) }
{
    if let Some((number, index)) = limit_fault(alloc, tokens)? {
        return Err(ParseStop::Fault(number, index));
    }
    match spelled(alloc, tokens) {
        Ok(file) => Ok(file),
        Err(PartStop::Memory(error)) => Err(ParseStop::Memory(error)),
        Err(PartStop::Fault(left)) => Err(ParseStop::Fault(4, (tokens.len() - left) as u32)),
    }
}

/// Returns the file that the tokens spell, which have to be fewer than 2^31.
///
/// # Errors
///
/// `Fault` with the first error of the tokens, or `Memory`.
pub fn parse(alloc: Global, tokens: &[Token]) -> Result<File, ParseStop>
    requires { length tokens.now < 2 ^ 31 }
    ensures found { IfOk result (λ file. IsWithinLimits tokens.now
        × IsFile (procedures file) tokens.now) }
    ensures only { (file : List Procedure) → IsWithinLimits tokens.now → IsFile file tokens.now
        → MatchResult result (λ found. procedures found ≡ file) (λ stop. IsParseMemory stop) }
    ensures fault { IfErr result (λ stop. IsParseStop tokens.now stop) }
    ensures only_fault { (number i : ℕ) → IsTokenFault tokens.now number i
        → MatchResult result (λ _. ⊥) (λ stop. IsThisParseStop number i stop) }
    ensures few { IfOk result (λ file. expression_nodes (procedures file) ≤ length tokens.now) }
{
    file_or_fault(alloc, tokens)
}

/// Returns the expression that the tokens spell, or their first error.
fn expression_or_fault(alloc: Global, tokens: &[Token]) -> Result<Expr, ParseStop>
    requires { length tokens.now < 2 ^ 31 }
    ensures found { IfOk result (λ expr. IsLight tokens.now × IsFull (expression expr) tokens.now) }
    ensures fault { IfErr result (λ stop. IsExpressionStop tokens.now stop) }
{
    if let Some(index) = overload_at(alloc, tokens)? {
        return Err(ParseStop::Fault(5, index as u32));
    }
    match spelled_expression(alloc, tokens) {
        Ok(expr) => Ok(expr),
        Err(PartStop::Memory(error)) => Err(ParseStop::Memory(error)),
        Err(PartStop::Fault(left)) => {
            let index = tokens.len() - left;
            Err(ParseStop::Fault(4, index as u32))
        }
    }
}

/// Returns the expression that the tokens spell, which have to be fewer than 2^31. The expression
/// may have quantifiers.
///
/// # Errors
///
/// `Fault` with the first error of the tokens, or `Memory`. The error is 5 at the first token after
/// which the load exceeds 200, otherwise 4 at the first token with which no expression goes on, or
/// at the number of tokens if they end too early.
pub fn parse_expr(alloc: Global, tokens: &[Token]) -> Result<Expr, ParseStop>
    requires { length tokens.now < 2 ^ 31 }
    ensures found { IfOk result (λ expr. IsLight tokens.now × IsFull (expression expr) tokens.now) }
    ensures only { (expr : Expression) → IsLight tokens.now → IsFull expr tokens.now
        → MatchResult result (λ found. expression found ≡ expr) (λ stop. IsParseMemory stop) }
    ensures fault { IfErr result (λ stop. IsExpressionStop tokens.now stop) }
    ensures only_fault { (number i : ℕ) → IsExpressionFault tokens.now number i
        → MatchResult result (λ _. ⊥) (λ stop. IsThisParseStop number i stop) }
{
    expression_or_fault(alloc, tokens)
}
