//! The parser of whole programs.

ghost use Rattle.heyvl_parse.specs.readers.Combinators.{is_key, lead};
ghost use Rattle.heyvl_parse.specs.readers.PartStops.{IsPartStop};
ghost use Rattle.heyvl_parse.specs.readers.Results.{Gives};
ghost use Rattle.heyvl_syntax.specs.Expressions.{expression};
ghost use Rattle.heyvl_syntax.specs.SourceFaults.{IsLight};
ghost use Rattle.heyvl_syntax.specs.declared.keys.Key.{Key};
ghost use Rattle.guarded_commands.specs.Grammar.{IsProg, IsProgram, is_quantifier};
ghost use Rattle.guarded_commands.specs.Grammar.{quantifier_count};
ghost use Rattle.guarded_commands.specs.ProgramFaults.{IsPgclMemory, IsPgclStop, IsProgramFault};
ghost use Rattle.guarded_commands.specs.ProgramFaults.{IsThisPgclStop};
ghost use Rattle.guarded_commands.specs.Programs.{ProgramTree, program_tree};
ghost use Rattle.guarded_commands.specs.internal.Commands.{ended_expr};
ghost use Rattle.guarded_commands.specs.internal.Programs.{program};
ghost use Rattle.std.specs.Prelude.{[], IfErr, IfOk, MatchResult, length, take, ◌+◌, ◌<◌, ◌^◌, ◌≡◌};
ghost use Rattle.std.specs.Prelude.{◌≤◌, ℕ};

use crate::commands::{commands, ended_expr};
use crate::declarations::declarations;
use crate::programs::Program;
use crate::stops::PgclStop;
use heyvl_parse::{PartStop, expect_key, overload_at};
use heyvl_syntax::{Expr, Key, Token, TokenKind};
use std::alloc::Global;

/// Reads the keyword `key`, an expression and `;`.
fn clause(alloc: Global, key: Key, tokens: &[Token]) -> Result<(Expr, &[Token]), PartStop>
    ensures value { (n : ℕ) → length tokens.now < n
        → Gives (λ x. expression x.0) (λ x. x.1.now) result
        (lead (is_key key) (ended_expr n) tokens.now) }
    ensures shorter { IfOk result (λ x. length x.1.now < length tokens.now) }
{
    let (_, rest) = expect_key(key, tokens)?;
    ended_expr(alloc, rest)
}

/// Reads a program, which may have quantifiers, and after which no token may be left.
fn program(alloc: Global, tokens: &[Token]) -> Result<Program, PartStop>
    ensures value { (n : ℕ) → length tokens.now < n
        → Gives program_tree (λ x. []) result (program n tokens.now) }
{
    let (declarations, rest) = declarations(alloc, tokens)?;
    let (pre, rest) = clause(alloc, Key::Pre, rest)?;
    let (post, rest) = clause(alloc, Key::Post, rest)?;
    let (body, rest) = commands(alloc, rest)?;
    match rest.split_first() {
        None => Ok(Program {
            declarations,
            pre,
            post,
            body,
        }),
        Some(_) => Err(PartStop::Fault(rest.len())),
    }
}

/// Returns the program that the tokens spell, which may have quantifiers, or the least index at
/// which none goes on.
fn spelled(alloc: Global, tokens: &[Token]) -> Result<Program, PartStop>
    ensures found { IfOk result (λ found. IsProg (program_tree found) tokens.now) }
    ensures fault { IfErr result (λ stop. IsPartStop IsProg tokens.now stop) }
{
    program(alloc, tokens)
}

fn is_quantifier(kind: &TokenKind) -> bool
    ensures { result ≡ is_quantifier kind.now }
{
    match kind {
        TokenKind::Key(key) => match key {
            Key::Sup | Key::Inf => true,
            _ => false,
        },
        TokenKind::Word(_) => false,
        TokenKind::Number(_) => false,
        TokenKind::Mark(_) => false,
    }
}

/// Returns the index of the first `sup` or `inf`, or the number of tokens if there is none.
fn quantifier_at(tokens: &[Token]) -> usize
    ensures inside { result ≤ length tokens.now }
    ensures before { quantifier_count (take result tokens.now) ≡ 0 }
    ensures here { result < length tokens.now
        → quantifier_count (take (result + 1) tokens.now) ≡ 1 }
{
    'tokens: for (index, token) in tokens.iter().enumerate() {
        if is_quantifier(&token.kind) {
            return index;
        }
    }
    tokens.len()
}

/// Returns the program that the tokens spell, or the least index at which none goes on.
fn unquantified(alloc: Global, tokens: &[Token]) -> Result<Program, PartStop>
    ensures found { IfOk result (λ found. IsProgram (program_tree found) tokens.now) }
    ensures fault { IfErr result (λ stop. IsPartStop IsProgram tokens.now stop) }
{
    let (front, behind) = tokens.split_at(quantifier_at(tokens));
    match spelled(alloc, front) {
        Err(PartStop::Memory(error)) => Err(PartStop::Memory(error)),
        Err(PartStop::Fault(left)) => Err(PartStop::Fault(left + behind.len())),
        Ok(found) => match behind.split_first() {
            None => Ok(found),
            Some(_) => Err(PartStop::Fault(behind.len())),
        },
    }
}

/// Returns the program that the tokens spell, or their first error.
fn program_or_fault(alloc: Global, tokens: &[Token]) -> Result<Program, PgclStop>
    requires { length tokens.now < 2 ^ 31 }
    ensures found { IfOk result (λ found. IsLight tokens.now
        × IsProgram (program_tree found) tokens.now) }
    ensures fault { IfErr result (λ stop. IsPgclStop tokens.now stop) }
{
    if let Some(index) = overload_at(alloc, tokens)? {
        return Err(PgclStop::Fault(5, index as u32));
    }
    match unquantified(alloc, tokens) {
        Ok(found) => Ok(found),
        Err(PartStop::Memory(error)) => Err(PgclStop::Memory(error)),
        Err(PartStop::Fault(left)) => Err(PgclStop::Fault(30, (tokens.len() - left) as u32)),
    }
}

/// Returns the program of guarded commands that the tokens spell, which have to be fewer than 2^31.
///
/// # Errors
///
/// `Fault` with the first error of the tokens, or `Memory`. The error is 5 at the first token after
/// which the load exceeds 200, otherwise 30 at the first token with which no program goes on, which
/// may be `sup` or `inf`, or at the number of tokens if they end too early.
pub fn parse_program(alloc: Global, tokens: &[Token]) -> Result<Program, PgclStop>
    requires { length tokens.now < 2 ^ 31 }
    ensures found { IfOk result (λ found. IsLight tokens.now
        × IsProgram (program_tree found) tokens.now) }
    ensures only { (program : ProgramTree) → IsLight tokens.now → IsProgram program tokens.now
        → MatchResult result (λ found. program_tree found ≡ program) (λ stop. IsPgclMemory stop) }
    ensures fault { IfErr result (λ stop. IsPgclStop tokens.now stop) }
    ensures only_fault { (number i : ℕ) → IsProgramFault tokens.now number i
        → MatchResult result (λ _. ⊥) (λ stop. IsThisPgclStop number i stop) }
{
    program_or_fault(alloc, tokens)
}
