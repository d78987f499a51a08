//! The keywords of HeyVL.

ghost use Rattle.heyvl_syntax.specs.internal.Fronts.{key_of, keys_from};
ghost use Rattle.heyvl_syntax.specs.Keys.{key_text};
ghost use Rattle.std.specs.Cmp.Lexicographic.{pointwise};
ghost use Rattle.std.specs.List.{find};
ghost use Rattle.std.specs.Prelude.{◌≡◌, nat_eq};

/// A keyword. The variants are in the order of the language's list of keywords.
#[derive(Clone, Copy, Debug, PartialEq, Eq)]
pub enum Key {
    Proc,
    CoProc,
    Pre,
    Post,
    Var,
    If,
    Else,
    While,
    Assert,
    Assume,
    CoAssert,
    CoAssume,
    Havoc,
    CoHavoc,
    Validate,
    CoValidate,
    Reward,
    Tick,
    TrueWord,
    FalseWord,
    BoolWord,
    IntWord,
    UIntWord,
    URealWord,
    EURealWord,
    RealWord,
    Ite,
    Flip,
    Unif,
    Choose,
    Sup,
    Inf,
    Cap,
    Cup,
    Infty,
}

impl Key {
    /// Returns the bytes of the keyword.
    pub fn text(self) -> &'static [u8]
        ensures { result.now ≡ key_text self }
    {
        match self {
            Key::Proc => b"proc",
            Key::CoProc => b"coproc",
            Key::Pre => b"pre",
            Key::Post => b"post",
            Key::Var => b"var",
            Key::If => b"if",
            Key::Else => b"else",
            Key::While => b"while",
            Key::Assert => b"assert",
            Key::Assume => b"assume",
            Key::CoAssert => b"coassert",
            Key::CoAssume => b"coassume",
            Key::Havoc => b"havoc",
            Key::CoHavoc => b"cohavoc",
            Key::Validate => b"validate",
            Key::CoValidate => b"covalidate",
            Key::Reward => b"reward",
            Key::Tick => b"tick",
            Key::TrueWord => b"true",
            Key::FalseWord => b"false",
            Key::BoolWord => b"Bool",
            Key::IntWord => b"Int",
            Key::UIntWord => b"UInt",
            Key::URealWord => b"UReal",
            Key::EURealWord => b"EUReal",
            Key::RealWord => b"Real",
            Key::Ite => b"ite",
            Key::Flip => b"flip",
            Key::Unif => b"unif",
            Key::Choose => b"choose",
            Key::Sup => b"sup",
            Key::Inf => b"inf",
            Key::Cap => b"\\cap",
            Key::Cup => b"\\cup",
            Key::Infty => b"\\infty",
        }
    }
}

/// Returns the keywords that begin with the byte `first`, in the order of the language.
fn keys_from(first: u8) -> &'static [Key]
    ensures { result.now ≡ keys_from first }
{
    match first {
        b'p' => &[Key::Proc, Key::Pre, Key::Post],
        b'c' => &[
            Key::CoProc,
            Key::CoAssert,
            Key::CoAssume,
            Key::CoHavoc,
            Key::CoValidate,
            Key::Choose,
        ],
        b'v' => &[Key::Var, Key::Validate],
        b'i' => &[Key::If, Key::Ite, Key::Inf],
        b'e' => &[Key::Else],
        b'w' => &[Key::While],
        b'a' => &[Key::Assert, Key::Assume],
        b'h' => &[Key::Havoc],
        b'r' => &[Key::Reward],
        b't' => &[Key::Tick, Key::TrueWord],
        b'f' => &[Key::FalseWord, Key::Flip],
        b'B' => &[Key::BoolWord],
        b'I' => &[Key::IntWord],
        b'U' => &[Key::UIntWord, Key::URealWord],
        b'E' => &[Key::EURealWord],
        b'R' => &[Key::RealWord],
        b'u' => &[Key::Unif],
        b's' => &[Key::Sup],
        b'\\' => &[Key::Cap, Key::Cup, Key::Infty],
        _ => &[],
    }
}

/// Returns the first of `keys` whose text is `text`.
fn key_among(keys: &[Key], text: &[u8]) -> Option<Key>
    ensures { result ≡ find (λ key. pointwise nat_eq text.now (key_text key)) keys.now }
{
    keys.iter().copied().find(|key| text == key.text())
}

/// Returns the keyword with the text `text`.
pub(crate) fn key_of(text: &[u8]) -> Option<Key>
    ensures { result ≡ key_of text.now }
{
    match text.split_first() {
        None => None,
        Some((first, _)) => key_among(keys_from(*first), text),
    }
}
