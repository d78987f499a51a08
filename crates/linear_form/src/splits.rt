//! Splits of integer variables.

ghost use Rattle.std.specs.Prelude.{◌≡◌, IfOk};
ghost use Rattle.heyvl_num.specs.Rational.{◌*ʳ◌};
ghost use Rattle.heyvl_num.specs.Rounding.{whole as whole_fraction};
ghost use Rattle.linear_rows.specs.Numbers.{minus_oneʳ};
ghost use Rattle.linear_form.specs.PlainPaths.{atom_of};
ghost use Rattle.linear_form.specs.Splits.{split_at};

use crate::paths::Atom;
use heyvl_num::Frac;
use linear_values::Lin;
use linear_values::numbers::{minus_one, whole};
use std::alloc::{AllocError, Global};

/// Returns the comparison `variable <= bound`. After the last comparison of a path it splits an
/// `Int` or `UInt` variable, which is at most `bound` or at least `bound + 1`.
pub fn split(alloc: Global, variable: u32, bound: i64) -> Result<Atom, AllocError>
    ensures { IfOk result (λ a. atom_of a ≡ split_at variable bound) }
{
    let mut terms = Vec::with_capacity(alloc, 1)?;
    terms.push((variable, Frac::one()))?;
    let left = Lin {
        terms,
        rest: negative(bound),
    };
    Ok(Atom::Row(left, false))
}

fn negative(n: i64) -> Frac
    ensures { result ≡ minus_oneʳ *ʳ whole_fraction n }
{
    minus_one().mul(&whole(n)).unwrap()
}
