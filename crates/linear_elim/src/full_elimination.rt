//! The elimination of all variables of rows, with its answer.

ghost use Rattle.std.specs.Prelude.{◌≡◌, ◌<◌, ◌^◌, length, true, None, IfOk, IfSome};
ghost use Rattle.std.specs.List.{All};
ghost use Rattle.linear_rows.specs.Row.{IsRow};
ghost use Rattle.linear_rows.specs.VariableOrder.{order_of};
ghost use Rattle.linear_rows.specs.VariableTypes.{IsNumericRow};
ghost use Rattle.linear_elim.specs.Answers.{eliminated, eliminated_by, IsShortLimited, IsAnswer};
ghost use Rattle.linear_elim.specs.Answers.{Settles};
ghost use Rattle.linear_elim.specs.Elimination.Rule.{drops};
ghost use Rattle.linear_elim.specs.internal.Limits.{IsPlainAnswer};
ghost use Rattle.linear_elim.specs.internal.Outcomes.{outcome_of};

use crate::answers::Elim;
use crate::choices::{Choice, greedy};
use crate::elimination::{Outcome, Run};
use crate::ordering::elimination_order;
use crate::refutations::refutation;
use crate::short_runs::{Short, short_steps};
use crate::starts::contradiction_or_steps;
use heylo_formula::Ty;
use linear_rows::Row;
use std::alloc::{AllocError, Global};

/// Returns the answer of the plain elimination with the outcome `end`.
fn plain_answer(alloc: Global, rows: &[Row], vars: &[Ty], end: Outcome) -> Result<Elim, AllocError>
    requires rows { All IsRow rows.now }
    requires numeric { All (IsNumericRow vars.now) rows.now }
    requires few { length rows.now < 2 ^ 32 }
    requires few_variables { length vars.now < 2 ^ 32 }
    requires end { outcome_of end ≡ eliminated rows.now vars.now }
    ensures { IfOk result (λ e. IsPlainAnswer rows.now vars.now e) }
{
    match end {
        Outcome::Refuted(contradiction) => match refutation(alloc, rows, &contradiction)? {
            Some(multipliers) => Ok(Elim::NoSolution(multipliers)),
            None => Ok(Elim::Bits),
        },
        Outcome::Standing(steps) => match greedy(alloc, &steps, vars)? {
            Choice::Point(point) => Ok(Elim::Point(point)),
            Choice::Break(broken) => Ok(Elim::Fraction(broken)),
            Choice::Great => Ok(Elim::Bits),
        },
        Outcome::TooMany(steps, count) => Ok(Elim::Rows(steps as u32, count as u32)),
        Outcome::TooGreat => Ok(Elim::Bits),
    }
}

/// Returns the answer of the elimination without dominated rows, or None if it reaches a limit.
fn short_answer(
    alloc: Global,
    rows: &[Row],
    vars: &[Ty],
    order: &[u32],
) -> Result<Option<Elim>, AllocError>
    requires rows { All IsRow rows.now }
    requires numeric { All (IsNumericRow vars.now) rows.now }
    requires few { length rows.now < 2 ^ 32 }
    requires few_variables { length vars.now < 2 ^ 32 }
    requires order { order.now ≡ order_of rows.now (length vars.now) }
    ensures some { IfOk result (λ o. IfSome o (λ e. IsAnswer rows.now vars.now e)) }
    ensures none { IfOk result (λ o. o ≡ None → IsShortLimited rows.now vars.now) }
{
    match short_steps(alloc, rows, order)? {
        Short::Refuted(contradiction) => match refutation(alloc, rows, &contradiction)? {
            Some(multipliers) => Ok(Some(Elim::NoSolution(multipliers))),
            None => Ok(None),
        },
        Short::Standing(steps) => match greedy(alloc, &steps, vars)? {
            Choice::Point(point) => Ok(Some(Elim::Point(point))),
            Choice::Break(broken) => Ok(Some(Elim::Fraction(broken))),
            Choice::Great => Ok(None),
        },
        Short::Limited => Ok(None),
    }
}

/// Returns the answer of the elimination without dominated rows, or `plain` if that reaches a limit
/// or is the same.
fn unless_short(
    alloc: Global,
    rows: &[Row],
    vars: &[Ty],
    order: &[u32],
    same: bool,
    plain: Elim,
) -> Result<Elim, AllocError>
    requires rows { All IsRow rows.now }
    requires numeric { All (IsNumericRow vars.now) rows.now }
    requires few { length rows.now < 2 ^ 32 }
    requires few_variables { length vars.now < 2 ^ 32 }
    requires order { order.now ≡ order_of rows.now (length vars.now) }
    requires same { same ≡ true
        → eliminated_by drops rows.now vars.now ≡ eliminated rows.now vars.now }
    requires plain { IsPlainAnswer rows.now vars.now plain }
    ensures { IfOk result (λ e. IsAnswer rows.now vars.now e) }
{
    if same {
        return Ok(plain);
    }
    match short_answer(alloc, rows, vars, order)? {
        Some(found) => Ok(found),
        None => Ok(plain),
    }
}

/// Eliminates the variables of `rows` in `order`. If a limit is reached, eliminates once more
/// without dominated rows, unless that is surely the same.
fn eliminate_in(alloc: Global, rows: &[Row], vars: &[Ty], order: &[u32]) -> Result<Elim, AllocError>
    requires rows { All IsRow rows.now }
    requires numeric { All (IsNumericRow vars.now) rows.now }
    requires few { length rows.now < 2 ^ 32 }
    requires few_variables { length vars.now < 2 ^ 32 }
    requires order { order.now ≡ order_of rows.now (length vars.now) }
    ensures { IfOk result (λ e. IsAnswer rows.now vars.now e) }
{
    let Run { end, same } = contradiction_or_steps(alloc, rows, order)?;
    match plain_answer(alloc, rows, vars, end)? {
        Elim::NoSolution(multipliers) => Ok(Elim::NoSolution(multipliers)),
        Elim::Point(point) => Ok(Elim::Point(point)),
        Elim::Fraction(broken) => Ok(Elim::Fraction(broken)),
        Elim::Rows(steps, count) => {
            unless_short(alloc, rows, vars, order, same, Elim::Rows(steps, count))
        }
        Elim::Bits => unless_short(alloc, rows, vars, order, same, Elim::Bits),
    }
}

/// Eliminates the variables of rows over numbers, and returns multipliers of a contradiction, the
/// greedy point, the variable at which the greedy choice breaks, or a limit: more than 4,096 rows,
/// or an overflow. A limit is returned only if the elimination without dominated rows reaches a
/// limit too.
pub fn eliminate(alloc: Global, rows: &[Row], vars: &[Ty]) -> Result<Elim, AllocError>
    requires rows { All IsRow rows.now }
    requires numeric { All (IsNumericRow vars.now) rows.now }
    requires few { length rows.now < 2 ^ 32 }
    requires few_variables { length vars.now < 2 ^ 32 }
    ensures answer { IfOk result (λ e. IsAnswer rows.now vars.now e) }
    ensures settles { IfOk result (λ e. Settles rows.now e) }
{
    let order = elimination_order(alloc, rows, vars.len() as u32)?;
    eliminate_in(alloc, rows, vars, &order)
}
