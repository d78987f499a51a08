//! Names that a program may not use.

ghost use Rattle.guarded_commands.specs.ReservedNames.{IsFirstReserved, IsReservedAt, declares};
ghost use Rattle.guarded_commands.specs.ReservedNames.{is_made, is_reserved, is_skip_word};
ghost use Rattle.std.specs.Prelude.{MatchOption, ◌≡◌, ℕ};

use heyvl_syntax::{Token, TokenKind};

/// Returns true for an identifier that begins with `init_` or `pick_`.
fn is_made(kind: &TokenKind) -> bool
    ensures { result ≡ is_made kind.now }
{
    match kind {
        TokenKind::Word(name) => {
            let word = name.as_bytes();
            word.starts_with(b"init_".as_slice()) || word.starts_with(b"pick_".as_slice())
        }
        TokenKind::Key(_) => false,
        TokenKind::Number(_) => false,
        TokenKind::Mark(_) => false,
    }
}

/// Returns true for the identifier `skip`.
fn is_skip_word(kind: &TokenKind) -> bool
    ensures { result ≡ is_skip_word kind.now }
{
    match kind {
        TokenKind::Word(name) => name.as_bytes() == b"skip".as_slice(),
        TokenKind::Key(_) => false,
        TokenKind::Number(_) => false,
        TokenKind::Mark(_) => false,
    }
}

/// Returns true if the token at `index` is a declared name, in a program with this number of
/// declarations.
fn declares(declarations: usize, index: usize) -> bool
    ensures { result ≡ declares declarations index }
{
    index / 3 < declarations && index % 3 == 1
}

/// Returns true if the token at `index`, of this kind, is reserved, in a program with this number
/// of declarations.
fn is_reserved(declarations: usize, index: usize, kind: &TokenKind) -> bool
    ensures { result ≡ is_reserved declarations index kind.now }
{
    is_made(kind) || is_skip_word(kind) && declares(declarations, index)
}

/// Returns the index of the first reserved token, if there is one, in a program with this number of
/// declarations.
pub(crate) fn reserved_at(tokens: &[Token], declarations: usize) -> Option<usize>
    ensures { MatchOption result ((i : ℕ) → IsReservedAt declarations tokens.now i
        → ⊥) (λ i. IsFirstReserved declarations tokens.now i) }
{
    'tokens: for (index, token) in tokens.iter().enumerate() {
        if is_reserved(declarations, index, &token.kind) {
            return Some(index);
        }
    }
    None
}
