//! The limits of a file that its tokens show: its nesting depth, and its number of procedures.

ghost use Rattle.heyvl_syntax.specs.SourceFaults.{IsCrowd, IsLight, IsOverload, IsUncrowded};
ghost use Rattle.heyvl_syntax.specs.SourceFaults.{is_procedure_key};
ghost use Rattle.std.specs.Prelude.{IfOk, MatchOption, ◌≡◌};

use crate::counts::Counts;
use crate::effects::token_effect;
use heyvl_syntax::{Key, Token, TokenKind};
use std::alloc::{AllocError, Global};

/// The largest load that is allowed after a token.
const LOAD_LIMIT: usize = 200;

/// The largest number of procedures of a file.
const PROCEDURE_LIMIT: usize = 1024;

/// Returns the index of the first token after which the load is above 200, if there is one.
pub fn overload_at(alloc: Global, tokens: &[Token]) -> Result<Option<usize>, AllocError>
    ensures { IfOk result (λ place.
        MatchOption place (IsLight tokens.now) (λ i. IsOverload tokens.now i)) }
{
    let mut counts = Counts::new(alloc);
    'tokens: for (index, token) in tokens.iter().enumerate() {
        counts.change(token_effect(&token.kind))?;
        if counts.load > LOAD_LIMIT {
            return Ok(Some(index));
        }
    }
    Ok(None)
}

/// Returns true for `proc` and `coproc`.
fn is_procedure_key(kind: &TokenKind) -> bool
    ensures { result ≡ is_procedure_key kind.now }
{
    match kind {
        TokenKind::Key(key) => match key {
            Key::Proc | Key::CoProc => true,
            _ => false,
        },
        TokenKind::Word(_) => false,
        TokenKind::Number(_) => false,
        TokenKind::Mark(_) => false,
    }
}

/// Returns the index of the 1,025th `proc` or `coproc`, if there is one.
pub fn crowd_at(tokens: &[Token]) -> Option<usize>
    ensures { MatchOption result (IsUncrowded tokens.now) (λ i. IsCrowd tokens.now i) }
{
    let mut procedures = 0;
    'tokens: for (index, token) in tokens.iter().enumerate() {
        if is_procedure_key(&token.kind) {
            if procedures == PROCEDURE_LIMIT {
                return Some(index);
            }
            procedures += 1;
        }
    }
    None
}
