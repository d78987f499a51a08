//! Rows of tests, given as lists of terms. Malformed rows yield `AllocError`.
ghost use Rattle.std.specs.Prelude.{◌≡◌, ◌<◌, IfOk, IsTrue};
ghost use Rattle.std.specs.List.{All};
ghost use Rattle.linear_rows.specs.Row.{IsRow};
ghost use Rattle.heylo_formula.specs.Typing.{types_in};
ghost use Rattle.linear_rows.specs.VariableTypes.{is_numeric, IsNumericRow};

use heylo_formula::Ty;
use linear_elim::{Elim, eliminate};
use linear_rows::Row;
use std::alloc::{AllocError, Global};
use test_lines::{coefficient, index};

fn is_number(ty: &Ty) -> bool
    ensures { result ≡ is_numeric ty.now }
{
    match ty {
        Ty::Bool => false,
        Ty::Int => true,
        Ty::UInt => true,
        Ty::UReal => true,
    }
}

/// Returns the row with these terms. Their variables have to grow, and no coefficient may be 0.
fn row(alloc: Global, terms: &[(u32, i64)], rest: i64, strict: bool) -> Result<Row, AllocError>
    ensures { IfOk result IsRow }
{
    let mut kept: Vec<(u32, i64)> = Vec::new(alloc);
    let mut least: u64 = 0;
    for &(variable, coefficient) in terms {
        if u64::from(variable) < least {
            return Err(AllocError);
        }
        let size = coefficient.unsigned_abs();
        if size == 0 {
            return Err(AllocError);
        }
        if size >= 1 << 62 {
            return Err(AllocError);
        }
        kept.push((variable, coefficient))?;
        least = u64::from(variable) + 1;
    }
    if rest.unsigned_abs() >= 1 << 62 {
        return Err(AllocError);
    }
    Ok(Row {
        terms: kept,
        rest,
        strict,
    })
}

/// Returns whether the variable with the number `x` exists and is numeric.
fn is_number_at(vars: &[Ty], x: u32) -> bool
    ensures { result ≡ is_numeric (types_in vars.now x) }
{
    match vars.get(x as usize) {
        Some(ty) => is_number(ty),
        None => false,
    }
}

/// Returns whether each variable of the row is numeric.
fn is_over_numbers(row: &Row, vars: &[Ty]) -> bool
    ensures { IsTrue result → IsNumericRow vars.now row.now }
{
    for &(variable, _) in &row.terms {
        if !is_number_at(vars, variable) {
            return false;
        }
    }
    true
}

fn are_over_numbers(rows: &[Row], vars: &[Ty]) -> bool
    ensures { IsTrue result → All (IsNumericRow vars.now) rows.now }
{
    for row in rows {
        if !is_over_numbers(row, vars) {
            return false;
        }
    }
    true
}

/// Returns the result of eliminating the variables of rows, which have to be numeric.
pub fn answer(alloc: Global, rows: &[Row], vars: &[Ty]) -> Result<Elim, AllocError>
    requires rows { All IsRow rows.now }
{
    if rows.len() >= 1 << 32 || vars.len() >= 1 << 32 {
        return Err(AllocError);
    }
    if !are_over_numbers(rows, vars) {
        return Err(AllocError);
    }
    eliminate(alloc, rows, vars)
}

/// Reads the rows of a text, each in the form that the library requires.
pub fn rows_of(alloc: Global, text: &str) -> Result<Vec<Row>, AllocError>
    ensures { IfOk result (λ v. All IsRow v.items) }
{
    let mut rows: Vec<Row> = Vec::new(alloc);
    let mut terms: Vec<(u32, i64)> = Vec::new(alloc);
    let mut rest: i64 = 0;
    for word in text.split_whitespace() {
        if word == "<=0" || word == "<0" {
            rows.push(row(alloc, &terms, rest, word == "<0")?)?;
            terms = Vec::new(alloc);
            rest = 0;
        } else if let Some((times, variable)) = word.split_once('x') {
            terms.push((index(variable)?, coefficient(times)?))?;
        } else {
            rest = coefficient(word)?;
        }
    }
    Ok(rows)
}
