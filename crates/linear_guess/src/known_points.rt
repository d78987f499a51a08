//! Points that satisfy the first rows of a path.
ghost use Rattle.std.specs.Prelude.{◌≡◌, List, take, min};
ghost use Rattle.std.specs.List.{All};
ghost use Rattle.linear_rows.specs.Row.{Row as PlainRow};
ghost use Rattle.linear_guess.specs.Searches.{IsKnown};

use crate::spots::Spot;

/// A point, and how many of the first rows of a path it is known to satisfy.
#[derive(Drop)]
pub struct KnownPoint {
    pub spot: Spot,
    pub met: usize,
}

/// Returns the smaller of two numbers.
pub(crate) fn least(a: usize, b: usize) -> usize
    ensures { result ≡ min a b }
{
    if a < b { a } else { b }
}

impl KnownPoint {
    /// Removes what is known of the rows from index `len` on.
    pub(crate) fn truncate(&mut self, len: usize)
        ensures { (before after : List PlainRow) → IsKnown before self.old
            → take len before ≡ take len after → IsKnown after self.new }
    {
        self.met = least(self.met, len);
    }
}

/// Removes what is known of the rows from index `len` on, for each point.
pub(crate) fn truncate_each(points: &mut [KnownPoint], len: usize)
    ensures { (before after : List PlainRow) → All (IsKnown before) points.old
        → take len before ≡ take len after → All (IsKnown after) points.new }
{
    for i in 0..points.len() {
        points[i].truncate(len);
    }
}
