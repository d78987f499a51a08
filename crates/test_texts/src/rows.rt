//! Rows, points and intervals without integers as texts. `2x0 -1x1 3 <=0` is the row that 2*x0 - x1
//! + 3 is at most 0; with `<0` it is strict.

use crate::numbers::write_fraction;
use goal_answers::Broken;
use heylo_formula::Val;
use linear_rows::Row;
use std::alloc::AllocError;
use std::fmt::Write;

/// Returns the text after the terms of a row, or of a linear value that is compared with 0.
pub fn sign(strict: bool) -> &'static str {
    if strict { " <0 " } else { " <=0 " }
}

/// Writes a row.
pub fn write_row(row: &Row, text: &mut String) -> Result<(), AllocError> {
    for (variable, coefficient) in row.terms.as_slice() {
        write!(text, "{coefficient}x{variable} ")?;
    }
    let rest = row.rest;
    write!(text, "{rest}")?;
    text.push_str(sign(row.strict))
}

/// Writes rows, one after another.
pub fn write_rows(rows: &[Row], text: &mut String) -> Result<(), AllocError> {
    for row in rows {
        write_row(row, text)?;
    }
    Ok(())
}

fn write_value(value: &Val, text: &mut String) -> Result<(), AllocError> {
    match value {
        Val::Num(x) => write_fraction(x, text)?,
        Val::Truth(true) => text.push_str("true")?,
        Val::Truth(false) => text.push_str("false")?,
    }
    text.push_str(" ")
}

/// Writes `word`, and then the state `point`.
pub fn write_point(word: &str, point: &[Val], text: &mut String) -> Result<(), AllocError> {
    text.push_str(word)?;
    for value in point {
        write_value(value, text)?;
    }
    Ok(())
}

/// Writes the ends of an interval. A bracket is an end that belongs to it, a parenthesis one that
/// does not.
fn write_interval(broken: &Broken, text: &mut String) -> Result<(), AllocError> {
    text.push_str(if broken.low_in { "[" } else { "(" })?;
    write_fraction(&broken.low, text)?;
    text.push_str(" ")?;
    write_fraction(&broken.high, text)?;
    text.push_str(if broken.high_in { "]" } else { ")" })
}

/// Writes a variable, the interval in which it has no integer, and the values that were chosen
/// before.
pub fn write_broken(broken: &Broken, text: &mut String) -> Result<(), AllocError> {
    let var = broken.var;
    write!(text, "broken x{var} ")?;
    write_interval(broken, text)?;
    for (variable, value) in broken.earlier.as_slice() {
        write!(text, " x{variable} ")?;
        write_value(value, text)?;
    }
    Ok(())
}
