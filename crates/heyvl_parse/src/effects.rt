//! The effects of tokens on the counts of the load.

ghost use Rattle.heyvl_parse.specs.internal.HeldCounts.{effect_of};
ghost use Rattle.heyvl_syntax.specs.Load.{effect, key_effect, mark_effect};
ghost use Rattle.std.specs.Prelude.{◌≡◌};

use heyvl_syntax::{Key, Mark, TokenKind};

/// The effect of a token on the counts.
#[derive(Clone, Copy)]
pub(crate) enum Effect {
    /// Opens a bracket, whose count begins at 0.
    Opens,
    /// Closes the innermost bracket, if one is open.
    Closes,
    /// Adds 1 to the innermost count.
    Adds,
    /// Sets the innermost count to 0.
    Resets,
    /// Changes nothing.
    Keeps,
}

fn mark_effect(mark: Mark) -> Effect
    ensures { effect_of result ≡ mark_effect mark }
{
    match mark {
        Mark::ParenLeft | Mark::BraceLeft | Mark::BracketLeft => Effect::Opens,
        Mark::ParenRight | Mark::BraceRight | Mark::BracketRight => Effect::Closes,
        Mark::Comma | Mark::Semi | Mark::Assign | Mark::AtSign => Effect::Resets,
        Mark::Same | Mark::Differ | Mark::Less | Mark::AtMost => Effect::Adds,
        Mark::CoImply | Mark::More | Mark::AtLeast | Mark::Plus => Effect::Adds,
        Mark::Minus | Mark::Star | Mark::Slash | Mark::AndAnd => Effect::Adds,
        Mark::OrOr | Mark::Bang | Mark::Tilde | Mark::Imply => Effect::Adds,
        Mark::Colon | Mark::Dot | Mark::Arrow | Mark::Question => Effect::Keeps,
    }
}

fn key_effect(key: Key) -> Effect
    ensures { effect_of result ≡ key_effect key }
{
    match key {
        Key::Proc | Key::CoProc | Key::Pre | Key::Post | Key::Var => Effect::Resets,
        Key::If | Key::Else | Key::While => Effect::Resets,
        Key::Assert | Key::Assume | Key::CoAssert | Key::CoAssume => Effect::Resets,
        Key::Havoc | Key::CoHavoc | Key::Validate | Key::CoValidate => Effect::Resets,
        Key::Reward | Key::Tick => Effect::Resets,
        Key::TrueWord | Key::FalseWord | Key::BoolWord | Key::IntWord => Effect::Keeps,
        Key::UIntWord | Key::URealWord | Key::EURealWord | Key::RealWord => Effect::Keeps,
        Key::Ite | Key::Flip | Key::Unif | Key::Choose | Key::Infty => Effect::Keeps,
        Key::Sup | Key::Inf | Key::Cap | Key::Cup => Effect::Adds,
    }
}

/// Returns the effect of a token of this kind.
pub(crate) fn token_effect(kind: &TokenKind) -> Effect
    ensures { effect_of result ≡ effect kind.now }
{
    match kind {
        TokenKind::Word(_) => Effect::Keeps,
        TokenKind::Number(_) => Effect::Keeps,
        TokenKind::Key(key) => key_effect(*key),
        TokenKind::Mark(mark) => mark_effect(*mark),
    }
}
