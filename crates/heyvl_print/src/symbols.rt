//! The bytes of operators, types, keywords and notes.

ghost use Rattle.heyvl_print.specs.Pieces.{token_text};
ghost use Rattle.heyvl_syntax.specs.Grammar.{check_key, havoc_key, note_word, operator, pick_key};
ghost use Rattle.heyvl_syntax.specs.Grammar.{prefix, proc_key, quantifier_key, truth_key, type_key};
ghost use Rattle.heyvl_syntax.specs.Grammar.{validate_key};
ghost use Rattle.heyvl_syntax.specs.Keys.{key_text};
ghost use Rattle.heyvl_syntax.specs.Marks.{mark_text};
ghost use Rattle.std.specs.Prelude.{◌≡◌};

use heyvl_places::CheckKind;
use heyvl_syntax::{BinaryOp, Note, TypeName, UnaryOp};

/// Returns the bytes of a binary operator.
pub(crate) fn operator_text(op: BinaryOp) -> &'static [u8]
    ensures { result.now ≡ token_text (operator op) }
{
    match op {
        BinaryOp::Imply => b"==>",
        BinaryOp::CoImply => b"<==",
        BinaryOp::Cup => b"\\cup",
        BinaryOp::Cap => b"\\cap",
        BinaryOp::Or => b"||",
        BinaryOp::And => b"&&",
        BinaryOp::Same => b"==",
        BinaryOp::Differ => b"!=",
        BinaryOp::Less => b"<",
        BinaryOp::AtMost => b"<=",
        BinaryOp::More => b">",
        BinaryOp::AtLeast => b">=",
        BinaryOp::Plus => b"+",
        BinaryOp::Minus => b"-",
        BinaryOp::Star => b"*",
        BinaryOp::Slash => b"/",
    }
}

/// Returns the bytes of a prefix operator.
pub(crate) fn prefix_text(op: UnaryOp) -> &'static [u8]
    ensures { result.now ≡ mark_text (prefix op) }
{
    match op {
        UnaryOp::Not => b"!",
        UnaryOp::Minus => b"-",
        UnaryOp::Tilde => b"~",
    }
}

/// Returns the bytes of a type.
pub(crate) fn type_text(ty: TypeName) -> &'static [u8]
    ensures { result.now ≡ key_text (type_key ty) }
{
    match ty {
        TypeName::Bool => b"Bool",
        TypeName::Int => b"Int",
        TypeName::UInt => b"UInt",
        TypeName::UReal => b"UReal",
        TypeName::EUReal => b"EUReal",
        TypeName::Real => b"Real",
    }
}

/// Returns the keyword of a check.
pub(crate) fn check_text(kind: CheckKind) -> &'static [u8]
    ensures { result.now ≡ key_text (check_key kind) }
{
    match kind {
        CheckKind::Assert => b"assert",
        CheckKind::Assume => b"assume",
        CheckKind::CoAssert => b"coassert",
        CheckKind::CoAssume => b"coassume",
    }
}

/// Returns the name of a note.
pub(crate) fn note_text(note: Note) -> &'static [u8]
    ensures { result.now ≡ note_word note }
{
    match note {
        Note::Wlp => b"wlp",
        Note::Wp => b"wp",
        Note::Ert => b"ert",
    }
}

/// Returns `true` or `false`.
pub(crate) fn truth_text(truth: bool) -> &'static [u8]
    ensures { result.now ≡ key_text (truth_key truth) }
{
    if truth { b"true" } else { b"false" }
}

/// Returns `sup` if `up` holds, otherwise `inf`.
pub(crate) fn quantifier_text(up: bool) -> &'static [u8]
    ensures { result.now ≡ key_text (quantifier_key up) }
{
    if up { b"sup" } else { b"inf" }
}

/// Returns `covalidate` if `co` holds, otherwise `validate`.
pub(crate) fn validate_text(co: bool) -> &'static [u8]
    ensures { result.now ≡ key_text (validate_key co) }
{
    if co { b"covalidate" } else { b"validate" }
}

/// Returns `cohavoc` if `co` holds, otherwise `havoc`.
pub(crate) fn havoc_text(co: bool) -> &'static [u8]
    ensures { result.now ≡ key_text (havoc_key co) }
{
    if co { b"cohavoc" } else { b"havoc" }
}

/// Returns `\cup` if `up` holds, otherwise `\cap`.
pub(crate) fn pick_text(up: bool) -> &'static [u8]
    ensures { result.now ≡ key_text (pick_key up) }
{
    if up { b"\\cup" } else { b"\\cap" }
}

/// Returns `coproc` if `co` holds, otherwise `proc`.
pub(crate) fn procedure_text(co: bool) -> &'static [u8]
    ensures { result.now ≡ key_text (proc_key co) }
{
    if co { b"coproc" } else { b"proc" }
}
