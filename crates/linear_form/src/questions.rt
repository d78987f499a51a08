//! The next comparison of a goal on a path.

use crate::paths::Atom;
use linear_values::Lin;

/// What is at the end of a path of a goal.
#[derive(Drop)]
pub enum Ask {
    /// The next comparison.
    Decide(Atom),
    /// No comparison is left: the values of the stated bound and of the computed form. None is
    /// infinity.
    End(Option<Lin>, Option<Lin>),
    /// A number reaches 2^62.
    Bits,
}
