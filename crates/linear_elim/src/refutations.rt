//! The multipliers that refute rows.
ghost use Rattle.std.specs.Prelude.{◌≡◌, None, IfOk, IfSome};
ghost use Rattle.std.specs.List.{All};
ghost use Rattle.linear_rows.specs.Row.{IsRow};
ghost use Rattle.linear_rows.specs.Combination.{IsContradiction};
ghost use Rattle.linear_elim.specs.Elimination.{multipliers};

use crate::joins::Derived;
use linear_rows::{Row, contradicts};
use std::alloc::{AllocError, Global};

/// Returns the multipliers of `row`.
fn multipliers_of(alloc: Global, row: &Derived) -> Result<Vec<(u32, u64)>, AllocError>
    ensures { IfOk result (λ ms. ms.items ≡ multipliers row.now) }
{
    let mut multipliers: Vec<(u32, u64)> = Vec::new(alloc);
    for &(index, share) in &row.shares {
        multipliers.push((index, share.unsigned_abs()))?;
    }
    Ok(multipliers)
}

/// Returns the multipliers of `contradiction`, if they combine `rows` to a contradiction.
pub fn refutation(
    alloc: Global,
    rows: &[Row],
    contradiction: &Derived,
) -> Result<Option<Vec<(u32, u64)>>, AllocError>
    requires { All IsRow rows.now }
    ensures some { IfOk result (λ o. IfSome o (λ ms. IsContradiction ms.items rows.now)) }
    ensures none { IfOk result (λ o. o ≡ None
        → IsContradiction (multipliers contradiction.now) rows.now → ⊥) }
{
    let multipliers = multipliers_of(alloc, contradiction)?;
    if contradicts(rows, &multipliers) {
        Ok(Some(multipliers))
    } else {
        Ok(None)
    }
}
