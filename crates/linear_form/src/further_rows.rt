//! Adding the rows of claims to a list of rows.

ghost use Rattle.std.specs.Prelude.{[], ◌∷◌, IfOk, not, true, false};
ghost use Rattle.linear_values.specs.Lin.{AreNormal};
ghost use Rattle.linear_values.specs.Kept.{IsKeptValue};
ghost use Rattle.linear_form.specs.internal.NormalPaths.{IsNormalAtom};
ghost use Rattle.linear_form.specs.PathRows.{claim, negated, answer_claims, below_claim, listed};
ghost use Rattle.linear_form.specs.internal.FurtherRows.{rows_with};
ghost use Rattle.linear_values.specs.PlainValues.{lin_of, linear_of};
ghost use Rattle.linear_form.specs.PlainPaths.{atom_of};
ghost use Rattle.linear_form.specs.RowLists.{Lists};
ghost use Rattle.heylo_formula.specs.Typing.{types_in};

use crate::path_rows::RowList;
use crate::paths::Atom;
use heylo_formula::Ty;
use linear_rows::Row;
use linear_values::lin::{constant, is_sized, minus, scaled};
use linear_values::numbers::minus_one;
use linear_values::{Lin, tightened};
use std::alloc::{AllocError, Global};

/// Returns `rows` and the row of the claim `left <= 0` or, if `strict`, `left < 0`.
pub(crate) fn with_claim(
    alloc: Global,
    types: &[Ty],
    mut rows: Vec<Row>,
    left: &Lin,
    strict: bool,
) -> Result<RowList, AllocError>
    requires { AreNormal (lin_of left.now).terms }
    ensures { IfOk result (λ r.
        Lists r (rows_with (types_in types.now) rows.items (claim (lin_of left.now) strict ∷ []))) }
{
    match tightened(alloc, types, left, strict)? {
        None => Ok(RowList::Bits),
        Some(row) => {
            rows.push(row)?;
            Ok(RowList::Rows(rows))
        }
    }
}

/// Returns `rows` and the row of the claim `-left <= 0` or, if `strict`, `-left < 0`.
pub(crate) fn with_negated(
    alloc: Global,
    types: &[Ty],
    rows: Vec<Row>,
    left: &Lin,
    strict: bool,
) -> Result<RowList, AllocError>
    requires { AreNormal (lin_of left.now).terms }
    ensures { IfOk result (λ r.
        Lists r (rows_with (types_in types.now) rows.items
        (claim (negated (lin_of left.now)) strict ∷ []))) }
{
    if !is_sized(left) {
        return Ok(RowList::Bits);
    }
    let down = scaled(alloc, &minus_one(), left)?;
    with_claim(alloc, types, rows, &down, strict)
}

/// Returns `rows` and the row of `atom`, or of its negation if `held` is false; a Boolean has none.
pub(crate) fn with_answer(
    alloc: Global,
    types: &[Ty],
    rows: Vec<Row>,
    atom: &Atom,
    held: bool,
) -> Result<RowList, AllocError>
    requires { IsNormalAtom (atom_of atom.now) }
    ensures { IfOk result (λ r.
        Lists r (rows_with (types_in types.now) rows.items
        (answer_claims (atom_of atom.now) held))) }
{
    match atom {
        Atom::Truth(_) => Ok(RowList::Rows(rows)),
        Atom::Row(left, strict) => {
            if held {
                with_claim(alloc, types, rows, left, *strict)
            } else {
                with_negated(alloc, types, rows, left, !*strict)
            }
        }
    }
}

/// Returns `rows` and the row of `x < y`. None is infinity, which is below nothing.
pub(crate) fn with_below(
    alloc: Global,
    types: &[Ty],
    rows: Vec<Row>,
    x: &Option<Lin>,
    y: &Option<Lin>,
) -> Result<RowList, AllocError>
    requires left { IsKeptValue (linear_of x.now) }
    requires right { IsKeptValue (linear_of y.now) }
    ensures { IfOk result (λ r.
        Lists r (rows_with (types_in types.now) rows.items
        (listed (below_claim (linear_of x.now) (linear_of y.now))))) }
{
    match x {
        None => Ok(RowList::Rows(rows)),
        Some(a) => match y {
            None => with_claim(alloc, types, rows, &constant(alloc, minus_one()), true),
            Some(b) => {
                let difference = minus(alloc, a, b)?;
                with_claim(alloc, types, rows, &difference, true)
            }
        },
    }
}
