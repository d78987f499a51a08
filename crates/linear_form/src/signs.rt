//! The signs of unsigned variables.

ghost use Rattle.std.specs.Prelude.{◌≡◌, ◌<◌, List, IfOk, map, length, false};
ghost use Rattle.linear_values.specs.Lin.{variable as variable_lin};
ghost use Rattle.linear_form.specs.PathRows.{claim, negated, is_unsigned_type};
ghost use Rattle.linear_form.specs.internal.FurtherRows.{rows_with, unsigned_in, all_unsigned_in};
ghost use Rattle.linear_form.specs.internal.FurtherRows.{sign_row as plain_sign_row};
ghost use Rattle.linear_rows.specs.Occurrences.{AreOccurrences};
ghost use Rattle.linear_rows.specs.Row.{Row as PlainRow};
ghost use Rattle.linear_form.specs.RowLists.{Lists};
ghost use Rattle.heylo_formula.specs.Typing.{types_in};

use crate::path_rows::RowList;
use heylo_formula::Ty;
use linear_rows::{Occurrences, Row};
use std::alloc::{AllocError, Global};

fn is_unsigned(types: &[Ty], x: usize) -> bool
    ensures { result ≡ is_unsigned_type (types_in types.now x) }
{
    match types.get(x) {
        None => false,
        Some(Ty::Bool) => false,
        Some(Ty::Int) => false,
        Some(Ty::UInt) => true,
        Some(Ty::UReal) => true,
    }
}

/// Returns the variable `x` if it is unsigned and occurs in the rows of `occurrences`.
fn unsigned_variable(types: &[Ty], occurrences: &Occurrences, x: usize) -> Option<u32>
    ensures { (rows : List PlainRow) → AreOccurrences (length types.now) rows occurrences.now
        → x < length types.now → result ≡ unsigned_in (types_in types.now) rows x }
{
    if is_unsigned(types, x) {
        occurrences.variable(x)
    } else {
        None
    }
}

fn sign_row(alloc: Global, x: u32) -> Result<Row, AllocError>
    ensures { IfOk result (λ r. r ≡ plain_sign_row x) }
{
    let mut terms = Vec::with_capacity(alloc, 1)?;
    terms.push((x, -1))?;
    Ok(Row {
        terms,
        rest: 0,
        strict: false,
    })
}

/// Returns `rows`, followed by `-x <= 0` for each unsigned variable `x` that occurs in them.
pub(crate) fn with_signs(alloc: Global, types: &[Ty], rows: Vec<Row>) -> Result<RowList, AllocError>
    ensures { IfOk result (λ r.
        Lists r (rows_with (types_in types.now) rows.items
        (map (λ x. claim (negated (variable_lin x)) false)
        (all_unsigned_in (types_in types.now) rows.items (length types.now))))) }
{
    let mut occurrences = Occurrences::new(alloc, types.len())?;
    occurrences.note(&rows, 0);
    with_noted_signs(alloc, types, rows, &occurrences)
}

/// Returns the same as `with_signs`, with the given occurrences of variables in `rows`.
pub(crate) fn with_noted_signs(
    alloc: Global,
    types: &[Ty],
    rows: Vec<Row>,
    occurrences: &Occurrences,
) -> Result<RowList, AllocError>
    requires { AreOccurrences (length types.now) rows.items occurrences.now }
    ensures { IfOk result (λ r.
        Lists r (rows_with (types_in types.now) rows.items
        (map (λ x. claim (negated (variable_lin x)) false)
        (all_unsigned_in (types_in types.now) rows.items (length types.now))))) }
{
    let mut made = rows;
    for x in 0..types.len() {
        match unsigned_variable(types, occurrences, x) {
            None => {}
            Some(variable) => made.push(sign_row(alloc, variable)?)?,
        }
    }
    Ok(RowList::Rows(made))
}
