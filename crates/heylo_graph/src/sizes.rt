//! The size of the tree of a node. No count exceeds 2^63.

ghost use Rattle.std.specs.Prelude.{◌≡◌, ◌+◌, ◌^◌, min, max};

const MOST: u64 = 1 << 63;

/// The number of nodes of a tree and its depth, both at most 2^63. A leaf has depth 1.
#[derive(Clone, Copy, Debug)]
pub(crate) struct Size {
    pub nodes: u64,
    pub depth: u64,
}

/// Returns 1 plus the sum of all three, or 2^63 if it is larger.
pub(crate) fn above(a: u64, b: u64, c: u64) -> u64
    ensures { (k l m : _) → a ≡ min (2 ^ 63) k → b ≡ min (2 ^ 63) l → c ≡ min (2 ^ 63) m
        → result ≡ min (2 ^ 63) (1 + (k + (l + m))) }
{
    if a >= MOST || b >= MOST || c >= MOST {
        return MOST;
    }
    let both = a + b;
    if both >= MOST || both + c >= MOST {
        MOST
    } else {
        both + c + 1
    }
}

/// Returns 1 plus the largest of the three, or 2^63 if it is larger.
pub(crate) fn below(a: u64, b: u64, c: u64) -> u64
    ensures { (k l m : _) → a ≡ min (2 ^ 63) k → b ≡ min (2 ^ 63) l → c ≡ min (2 ^ 63) m
        → result ≡ min (2 ^ 63) (1 + max k (max l m)) }
{
    let most = a.max(b.max(c));
    if most >= MOST { MOST } else { most + 1 }
}
