//! The parser of files, up to the first token at which no file goes on.

ghost use Rattle.heyvl_parse.specs.internal.Statements.{braced, stmts};
ghost use Rattle.heyvl_parse.specs.readers.Combinators.{starts};
ghost use Rattle.heyvl_parse.specs.internal.FileReaders.{begins, file, procs};
ghost use Rattle.heyvl_parse.specs.readers.PartStops.{IsPartStop};
ghost use Rattle.heyvl_parse.specs.readers.Results.{Gives};
ghost use Rattle.heyvl_syntax.specs.Grammar.{IsFile};
ghost use Rattle.heyvl_syntax.specs.Procedures.{procedure, procedures};
ghost use Rattle.std.specs.Prelude.{[], IfErr, IfOk, length, map, ◌<◌, ◌≡◌, ◌≤◌, ℕ};

use crate::procedures::{proc_of, procedure};
use crate::stops::PartStop;
use crate::tokens::starts_mark;
use heyvl_syntax::{File, Mark, Proc, Token};
use std::alloc::Global;

/// Returns true if a procedure begins with the first token.
fn starts_procedure(tokens: &[Token]) -> bool
    ensures { result ≡ starts begins tokens.now }
{
    match tokens.split_first() {
        None => false,
        Some((token, _)) => starts_mark(Mark::AtSign, tokens) || proc_of(&token.kind).is_some(),
    }
}

/// Reads procedures as long as one begins.
fn procs(alloc: Global, tokens: &[Token]) -> Result<(Vec<Proc>, &[Token]), PartStop>
    ensures value { (n : ℕ) → length tokens.now < n
        → Gives (λ x. map procedure x.0.items) (λ x. x.1.now) result
        (procs (braced (stmts n)) n tokens.now) }
    ensures shorter { IfOk result (λ x. length x.1.now ≤ length tokens.now) }
{
    let mut found = Vec::new(alloc);
    let mut rest = tokens;
    'items: while starts_procedure(rest) {
        let (one, behind) = procedure(alloc, rest)?;
        found.push(one)?;
        rest = behind;
    }
    Ok((found, rest))
}

/// Reads procedures, after which no token may be left.
fn file(alloc: Global, tokens: &[Token]) -> Result<File, PartStop>
    ensures value { (n : ℕ) → length tokens.now < n
        → Gives (λ x. procedures x) (λ x. []) result (file (braced (stmts n)) n tokens.now) }
{
    let (procs, rest) = procs(alloc, tokens)?;
    match rest.split_first() {
        None => Ok(File { procs }),
        Some(_) => Err(PartStop::Fault(rest.len())),
    }
}

/// Returns the file that the tokens spell, or the least index at which no file goes on.
pub(crate) fn spelled(alloc: Global, tokens: &[Token]) -> Result<File, PartStop>
    ensures found { IfOk result (λ file. IsFile (procedures file) tokens.now) }
    ensures fault { IfErr result (λ stop. IsPartStop IsFile tokens.now stop) }
{
    file(alloc, tokens)
}
