//! Rows: linear inequalities with integer coefficients.
ghost use Rattle.linear_rows.specs.Row.{Row as RowValue};

use std::marker::Model;

/// A row: the inequality `terms + rest <= 0`, or `terms + rest < 0` if `strict` is set.
///
/// A term is the number of a variable and its coefficient: `x0 - 2*x3 + 5 < 0` has the terms `(0,
/// 1)` and `(3, -2)`, the rest 5, and is strict.
#[derive(Drop, Debug)]
pub struct Row {
    pub terms: Vec<(u32, i64)>,
    pub rest: i64,
    pub strict: bool,
}

impl Model for Row {
    ghost Value = { RowValue };

    ghost view = { λ r. record { terms = r.terms.items; rest = r.rest; strict = r.strict } };
}
