//! Combinations of copies that may have failed.

ghost use Rattle.std.specs.Prelude.{IfOk, Ok, ◌≡◌};

use std::alloc::{AllocError, Global};

/// Returns the copy in a box.
pub(crate) fn in_box<T: Drop>(
    alloc: Global,
    copied: Result<T, AllocError>,
) -> Result<Box<T>, AllocError>
    ensures { IfOk result (λ boxed. copied ≡ Ok boxed.value) }
{
    Ok(Box::new(alloc, copied?)?)
}

/// Returns both copies as a pair.
pub(crate) fn beside<A: Drop, B: Drop>(
    first: Result<A, AllocError>,
    second: Result<B, AllocError>,
) -> Result<(A, B), AllocError>
    ensures first { IfOk result (λ both. first ≡ Ok both.0) }
    ensures second { IfOk result (λ both. second ≡ Ok both.1) }
{
    let first = first?;
    Ok((first, second?))
}
