//! The parser of the declarations of a program.

ghost use Rattle.heyvl_parse.specs.readers.Combinators.{each, starts};
ghost use Rattle.heyvl_parse.specs.readers.Results.{Gives};
ghost use Rattle.guarded_commands.specs.internal.Programs.{declaration, is_type, kind_type};
ghost use Rattle.guarded_commands.specs.internal.Programs.{variable_type, word_type};
ghost use Rattle.std.specs.Prelude.{IfOk, length, ◌<◌, ◌≡◌, ◌≤◌, ℕ};

use crate::programs::{Declaration, VariableType};
use heyvl_parse::{PartStop, closed, next, span_between, word};
use heyvl_syntax::{Mark, Token, TokenKind};
use std::alloc::Global;

/// Returns the type that an identifier names, if it names one.
fn word_type(word: &[u8]) -> Option<VariableType>
    ensures { result ≡ word_type word.now }
{
    if word == b"bool".as_slice() {
        return Some(VariableType::Bool);
    }
    if word == b"nat".as_slice() {
        return Some(VariableType::Nat);
    }
    if word == b"real".as_slice() {
        return Some(VariableType::Real);
    }
    None
}

/// Returns the type that a token names, if it names one.
fn kind_type(kind: &TokenKind) -> Option<VariableType>
    ensures { result ≡ kind_type kind.now }
{
    match kind {
        TokenKind::Word(name) => word_type(name.as_bytes()),
        TokenKind::Key(_) => None,
        TokenKind::Number(_) => None,
        TokenKind::Mark(_) => None,
    }
}

/// Returns true if a declaration begins with the first token.
fn starts_declaration(tokens: &[Token]) -> bool
    ensures { result ≡ starts is_type tokens.now }
{
    match tokens.split_first() {
        None => false,
        Some((token, _)) => kind_type(&token.kind).is_some(),
    }
}

/// Reads the type of a variable.
fn variable_type(tokens: &[Token]) -> Result<(VariableType, &[Token]), PartStop>
    ensures value { Gives (λ x. x.0) (λ x. x.1.now) result (variable_type tokens.now) }
    ensures shorter { IfOk result (λ x. length x.1.now < length tokens.now) }
{
    let (token, rest) = next(tokens)?;
    match kind_type(&token.kind) {
        Some(ty) => Ok((ty, rest)),
        None => Err(PartStop::Fault(tokens.len())),
    }
}

/// Reads a declaration.
fn declaration(alloc: Global, tokens: &[Token]) -> Result<(Declaration, &[Token]), PartStop>
    ensures value { Gives (λ x. x.0) (λ x. x.1.now) result (declaration tokens.now) }
    ensures shorter { IfOk result (λ x. length x.1.now < length tokens.now) }
{
    let (ty, rest) = variable_type(tokens)?;
    let (name, rest) = word(alloc, rest)?;
    let (name, rest) = closed(name, Mark::Semi, rest)?;
    let span = span_between(tokens, rest);
    Ok((Declaration { ty, name, span }, rest))
}

/// Reads declarations as long as one begins.
pub(crate) fn declarations(
    alloc: Global,
    tokens: &[Token],
) -> Result<(Vec<Declaration>, &[Token]), PartStop>
    ensures value { (n : ℕ) → length tokens.now < n
        → Gives (λ x. x.0.items) (λ x. x.1.now) result (each is_type declaration n tokens.now) }
    ensures shorter { IfOk result (λ x. length x.1.now ≤ length tokens.now) }
{
    let mut found = Vec::new(alloc);
    let mut rest = tokens;
    'items: while starts_declaration(rest) {
        let (one, behind) = declaration(alloc, rest)?;
        found.push(one)?;
        rest = behind;
    }
    Ok((found, rest))
}
