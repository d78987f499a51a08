//! Names.

ghost use Rattle.heyvl_places.specs.internal.Spellings.{spelled};
ghost use Rattle.std.proofs.Common.{rules};
ghost use Rattle.std.specs.Cmp.Lexicographic.{pointwise};
ghost use Rattle.std.specs.Cmp.Rules.{comparing, hashing};
ghost use Rattle.std.specs.Hash as fed;
ghost use Rattle.std.specs.Prelude.{◌≡◌, ◌≤◌, IfOk, List, length, nat_eq, take, ℕ};

use std::alloc::{AllocError, Global};
use std::hash::{Hash, Hasher};
use std::marker::Model;

/// The largest number of bytes that a name stores without an allocation.
const IN_PLACE: usize = 22;

/// How the bytes of a name are stored.
#[derive(Drop)]
pub(crate) enum Spelling {
    /// The first bytes of the array, as many as the number says.
    Short(u8, [u8; IN_PLACE]),
    /// More than 22 bytes.
    Long(Box<Vec<u8>>),
}

/// Returns the spelling of a text that fits into the array.
fn short_spelling(text: &[u8]) -> Spelling
    requires { length text.now ≤ 22 }
    ensures { spelled result ≡ text.now }
{
    let mut kept = [0; IN_PLACE];
    kept[..text.len()].copy_from_slice(text);
    Spelling::Short(text.len() as u8, kept)
}

/// Returns the spelling of the first `n` bytes, which fit into the array.
///
/// If `bytes` fills the array, all 22 bytes are copied, because that is a single move.
fn front_spelling(bytes: &[u8], n: usize) -> Spelling
    requires inside { n ≤ length bytes.now }
    requires short { n ≤ 22 }
    ensures { spelled result ≡ take n bytes.now }
{
    match bytes.first_chunk::<IN_PLACE>() {
        None => short_spelling(&bytes[..n]),
        Some(kept) => Spelling::Short(n as u8, *kept),
    }
}

/// Returns the spelling of a text of any length.
fn long_spelling(alloc: Global, text: &[u8]) -> Result<Spelling, AllocError>
    ensures { IfOk result (λ spelling. spelled spelling ≡ text.now) }
{
    let bytes = Vec::from_slice(alloc, text)?;
    Ok(Spelling::Long(Box::new(alloc, bytes)?))
}

/// A name: a list of bytes.
#[derive(Drop)]
pub struct Name {
    spelling: Spelling,
}

impl Model for Name {
    ghost Value = { List ℕ };

    ghost view = { λ name. spelled name.spelling };
}

impl PartialEq for Name {
    ghost eq = { λ a b. pointwise nat_eq a b };

    ghost laws = { Prim.search (comparing, rules) };

    fn eq(&self, other: &Name) -> bool {
        self.as_bytes() == other.as_bytes()
    }
}

impl Eq for Name {
    ghost laws = { Prim.search (comparing, rules) };
}

impl Hash for Name {
    ghost hash_input = { λ name. fed.slice fed.u8 name };

    ghost respects_eq = { Prim.search (hashing, rules) };

    fn hash<H: Hasher>(&self, state: &mut H) {
        self.as_bytes().hash(state);
    }
}

impl Name {
    /// Returns the name with these bytes.
    pub fn new(alloc: Global, bytes: &[u8]) -> Result<Name, AllocError>
        ensures { IfOk result (λ name. name ≡ bytes.now) }
    {
        if bytes.len() <= IN_PLACE {
            Ok(Name {
                spelling: short_spelling(bytes),
            })
        } else {
            Ok(Name {
                spelling: long_spelling(alloc, bytes)?,
            })
        }
    }

    /// Returns the name with the first `n` bytes.
    pub fn of_front(alloc: Global, bytes: &[u8], n: usize) -> Result<Name, AllocError>
        requires { n ≤ length bytes.now }
        ensures { IfOk result (λ name. name ≡ take n bytes.now) }
    {
        if n <= IN_PLACE {
            Ok(Name {
                spelling: front_spelling(bytes, n),
            })
        } else {
            Ok(Name {
                spelling: long_spelling(alloc, &bytes[..n])?,
            })
        }
    }

    /// Returns a copy of the name.
    pub fn copy(&self, alloc: Global) -> Result<Name, AllocError>
        ensures { IfOk result (λ copied. copied ≡ self.now) }
    {
        match &self.spelling {
            Spelling::Short(len, kept) => Ok(Name {
                spelling: Spelling::Short(*len, *kept),
            }),
            Spelling::Long(bytes) => Ok(Name {
                spelling: long_spelling(alloc, bytes.as_slice())?,
            }),
        }
    }

    /// Returns the bytes of the name.
    pub fn as_bytes(&self) -> &[u8]
        ensures { result.now ≡ self.now }
    {
        match &self.spelling {
            Spelling::Short(len, kept) => &kept[..usize::from(*len).min(IN_PLACE)],
            Spelling::Long(bytes) => bytes.as_slice(),
        }
    }

    /// Returns copies of the names, in their order.
    pub fn copy_all(alloc: Global, all: &[Name]) -> Result<Vec<Name>, AllocError>
        ensures { IfOk result (λ copied. copied.items ≡ all.now) }
    {
        let mut copied = Vec::with_capacity(alloc, all.len())?;
        for one in all {
            copied.push(one.copy(alloc)?)?;
        }
        Ok(copied)
    }
}
