//! Terms of linear values, in increasing order of the variables.

ghost use Rattle.std.specs.Prelude.{◌≡◌, ◌++◌, [], IfOk, true};
ghost use Rattle.linear_values.specs.Lin.{all_fit, unless_zero, merged as merged_terms, AreNormal};
ghost use Rattle.linear_values.specs.Operator.{signed_terms};

use crate::numbers::{is_zero, signed, sum};
use heyvl_num::Frac;
use std::alloc::{AllocError, Global};

/// Returns `into + from` or, if `downward`, `into - from`.
pub(crate) fn merged(
    alloc: Global,
    from: &[(u32, Frac)],
    downward: bool,
    into: &[(u32, Frac)],
) -> Result<Vec<(u32, Frac)>, AllocError>
    requires normal { AreNormal from.now }
    requires from_fits { all_fit from.now ≡ true }
    requires into_fits { all_fit into.now ≡ true }
    ensures { IfOk result (λ v. v.items ≡ merged_terms (signed_terms downward from.now) into.now) }
{
    let mut made = Vec::with_capacity(alloc, from.len().saturating_add(into.len()))?;
    let mut left = from;
    let mut right = into;
    'terms: while let Some((term, others)) = left.split_first() {
        let x = term.0;
        let new = signed(&term.1, downward);
        match right.split_first() {
            None => {
                made.push((x, new))?;
                left = others;
            }
            Some((old, further)) => {
                if old.0 < x {
                    made.push(*old)?;
                    right = further;
                } else if x < old.0 {
                    made.push((x, new))?;
                    left = others;
                } else {
                    push_term(&mut made, x, sum(&old.1, &new))?;
                    left = others;
                    right = further;
                }
            }
        }
    }
    made.extend_from_slice(right)?;
    Ok(made)
}

/// Appends the term `c * x`, unless `c` is 0.
fn push_term(made: &mut Vec<(u32, Frac)>, x: u32, c: Frac) -> Result<(), AllocError>
    ensures { IfOk result (λ _. made.new.items ≡ made.old.items ++ unless_zero x c []) }
{
    if !is_zero(&c) {
        made.push((x, c))?;
    }
    Ok(())
}
