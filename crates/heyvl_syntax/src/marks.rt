//! The symbols of HeyVL.

ghost use Rattle.heyvl_syntax.specs.internal.Fronts.{mark_of};
ghost use Rattle.heyvl_syntax.specs.Marks.{mark_text};
ghost use Rattle.std.specs.List.{starts_with};
ghost use Rattle.std.specs.Prelude.{Some, cond, nat_eq, ◌∷◌, ◌≡◌};

/// A symbol. The variants are in the order of the language's list of symbols.
#[derive(Clone, Copy, Debug, PartialEq, Eq)]
pub enum Mark {
    ParenLeft,
    ParenRight,
    BraceLeft,
    BraceRight,
    BracketLeft,
    BracketRight,
    Comma,
    Colon,
    Semi,
    Dot,
    Assign,
    Same,
    Differ,
    Less,
    AtMost,
    CoImply,
    More,
    AtLeast,
    Plus,
    Minus,
    Star,
    Slash,
    AndAnd,
    OrOr,
    Bang,
    Tilde,
    Imply,
    Arrow,
    Question,
    AtSign,
}

impl Mark {
    /// Returns the bytes of the symbol.
    pub fn text(self) -> &'static [u8]
        ensures { result.now ≡ mark_text self }
    {
        match self {
            Mark::ParenLeft => b"(",
            Mark::ParenRight => b")",
            Mark::BraceLeft => b"{",
            Mark::BraceRight => b"}",
            Mark::BracketLeft => b"[",
            Mark::BracketRight => b"]",
            Mark::Comma => b",",
            Mark::Colon => b":",
            Mark::Semi => b";",
            Mark::Dot => b".",
            Mark::Assign => b"=",
            Mark::Same => b"==",
            Mark::Differ => b"!=",
            Mark::Less => b"<",
            Mark::AtMost => b"<=",
            Mark::CoImply => b"<==",
            Mark::More => b">",
            Mark::AtLeast => b">=",
            Mark::Plus => b"+",
            Mark::Minus => b"-",
            Mark::Star => b"*",
            Mark::Slash => b"/",
            Mark::AndAnd => b"&&",
            Mark::OrOr => b"||",
            Mark::Bang => b"!",
            Mark::Tilde => b"~",
            Mark::Imply => b"==>",
            Mark::Arrow => b"->",
            Mark::Question => b"?",
            Mark::AtSign => b"@",
        }
    }
}

/// Returns `mark` if `bytes` begin with `rest`, otherwise `shorter`.
fn longer(bytes: &[u8], rest: &[u8], mark: Mark, shorter: Option<Mark>) -> Option<Mark>
    ensures { result ≡ cond (starts_with nat_eq bytes.now rest.now) (Some mark) shorter }
{
    if bytes.starts_with(rest) {
        Some(mark)
    } else {
        shorter
    }
}

/// Returns the longest symbol with which the byte `first`, followed by `behind`, begins.
fn mark_from(first: u8, behind: &[u8]) -> Option<Mark>
    ensures { result ≡ mark_of (first ∷ behind.now) }
{
    match first {
        b'(' => Some(Mark::ParenLeft),
        b')' => Some(Mark::ParenRight),
        b'{' => Some(Mark::BraceLeft),
        b'}' => Some(Mark::BraceRight),
        b'[' => Some(Mark::BracketLeft),
        b']' => Some(Mark::BracketRight),
        b',' => Some(Mark::Comma),
        b':' => Some(Mark::Colon),
        b';' => Some(Mark::Semi),
        b'.' => Some(Mark::Dot),
        b'=' => {
            let shorter = longer(behind, b"=", Mark::Same, Some(Mark::Assign));
            longer(behind, b"=>", Mark::Imply, shorter)
        }
        b'!' => longer(behind, b"=", Mark::Differ, Some(Mark::Bang)),
        b'<' => {
            let shorter = longer(behind, b"=", Mark::AtMost, Some(Mark::Less));
            longer(behind, b"==", Mark::CoImply, shorter)
        }
        b'>' => longer(behind, b"=", Mark::AtLeast, Some(Mark::More)),
        b'+' => Some(Mark::Plus),
        b'-' => longer(behind, b">", Mark::Arrow, Some(Mark::Minus)),
        b'*' => Some(Mark::Star),
        b'/' => Some(Mark::Slash),
        b'&' => longer(behind, b"&", Mark::AndAnd, None),
        b'|' => longer(behind, b"|", Mark::OrOr, None),
        b'~' => Some(Mark::Tilde),
        b'?' => Some(Mark::Question),
        b'@' => Some(Mark::AtSign),
        _ => None,
    }
}

/// Returns the longest symbol with which `bytes` begin.
pub(crate) fn mark_of(bytes: &[u8]) -> Option<Mark>
    ensures { result ≡ mark_of bytes.now }
{
    match bytes.split_first() {
        None => None,
        Some((first, behind)) => mark_from(*first, behind),
    }
}
