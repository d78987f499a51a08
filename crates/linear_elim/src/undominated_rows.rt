//! Rows that no other row dominates.
ghost use Rattle.std.specs.Prelude.{◌≡◌, ◌<◌, ◌≤◌, [], map, not, cond, true, length, Some, None};
ghost use Rattle.std.specs.Prelude.{IfOk, IfSome};
ghost use Rattle.std.specs.List.{All, list_any};
ghost use Rattle.linear_dominance.specs.DominatedRows.{first_variable, is_sign_row};
ghost use Rattle.linear_dominance.specs.DominatedRows.{signed_variables, dominates, is_dominated};
ghost use Rattle.linear_elim.specs.Steps.{bare, undominated};
ghost use Rattle.linear_elim.specs.internal.DerivedRows.{IsDerived};

use crate::joins::Derived;
use linear_dominance::{dominates, sign_of};
use std::alloc::{AllocError, Global};

/// Returns the variable `x` if the row is `-x <= 0`.
fn sign_in(r: &Derived) -> Option<u32>
    ensures { result ≡ cond (is_sign_row r.now.row) (Some (first_variable r.now.row.terms)) None }
{
    let row = &r.row;
    sign_of(row)
}

/// Returns the variables whose sign rows are among the rows.
fn signs_among(alloc: Global, rows: &[Derived]) -> Result<Vec<u32>, AllocError>
    ensures { IfOk result (λ v. v.items ≡ signed_variables (bare rows.now)) }
{
    let mut signed: Vec<u32> = Vec::new(alloc);
    for i in 0..rows.len() {
        if let Some(variable) = sign_in(&rows[i]) {
            signed.push(variable)?;
        }
    }
    Ok(signed)
}

/// Returns true only if no row is `-x <= 0` for some variable.
pub(crate) fn lack_signs(rows: &[Derived]) -> bool
    ensures { result ≡ true → signed_variables (bare rows.now) ≡ [] }
{
    for i in 0..rows.len() {
        if sign_in(&rows[i]).is_some() {
            return false;
        }
    }
    true
}

fn is_above(signed: &[u32], s: &Derived, r: &Derived) -> bool
    requires first { IsDerived s.now }
    requires second { IsDerived r.now }
    ensures { result ≡ dominates signed.now s.now.row r.now.row }
{
    let first = &s.row;
    let second = &r.row;
    dominates(signed, first, second)
}

fn is_below_one(signed: &[u32], rows: &[Derived], r: &Derived) -> bool
    requires rows { All IsDerived rows.now }
    requires row { IsDerived r.now }
    ensures { result ≡ list_any (λ s. dominates signed.now s r.now.row) (bare rows.now) }
{
    for i in 0..rows.len() {
        if is_above(signed, &rows[i], r) {
            return true;
        }
    }
    false
}

/// Returns whether none of `rows`, which include `r`, dominates `r`.
fn is_left(signed: &[u32], rows: &[Derived], r: &Derived) -> bool
    requires signed { signed.now ≡ signed_variables (bare rows.now) }
    requires rows { All IsDerived rows.now }
    requires row { IsDerived r.now }
    ensures { result ≡ not (is_dominated (bare rows.now) r.now.row) }
{
    if sign_in(r).is_some() {
        return true;
    }
    !is_below_one(signed, rows, r)
}

/// Returns for each row whether no other row dominates it, or None if this holds for more than
/// 4,096.
fn left_among(
    alloc: Global,
    signed: &[u32],
    rows: &[Derived],
) -> Result<Option<Vec<bool>>, AllocError>
    requires signed { signed.now ≡ signed_variables (bare rows.now) }
    requires rows { All IsDerived rows.now }
    ensures left { IfOk result
        (λ o. IfSome o
        (λ v. v.items ≡ map (λ d. not (is_dominated (bare rows.now) d.row)) rows.now)) }
    ensures few { IfOk result (λ o. IfSome o (λ _. length (undominated rows.now) ≤ 4096)) }
    ensures many { IfOk result (λ o. o ≡ None → 4096 < length (undominated rows.now)) }
{
    let mut left: Vec<bool> = Vec::new(alloc);
    let mut count: usize = 0;
    for i in 0..rows.len() {
        let stays = is_left(signed, rows, &rows[i]);
        if stays {
            if count >= 4096 {
                return Ok(None);
            }
            count += 1;
        }
        left.push(stays)?;
    }
    Ok(Some(left))
}

fn picked(alloc: Global, rows: Vec<Derived>, left: &[bool]) -> Result<Vec<Derived>, AllocError>
    requires { left.now ≡ map (λ d. not (is_dominated (bare rows.items) d.row)) rows.items }
    ensures { IfOk result (λ v. v.items ≡ undominated rows.items) }
{
    let mut out: Vec<Derived> = Vec::new(alloc);
    let mut i: usize = 0;
    for r in rows {
        if i < left.len() && left[i] {
            out.push(r)?;
        }
        i = i.saturating_add(1);
    }
    Ok(out)
}

/// Returns the rows that no other row dominates, in order, or None if there are more than 4,096.
pub(crate) fn without_dominated(
    alloc: Global,
    rows: Vec<Derived>,
) -> Result<Option<Vec<Derived>>, AllocError>
    requires { All IsDerived rows.items }
    ensures rows { IfOk result (λ o. IfSome o (λ v. v.items ≡ undominated rows.items)) }
    ensures few { IfOk result (λ o. IfSome o (λ v. length v.items ≤ 4096)) }
    ensures many { IfOk result (λ o. o ≡ None → 4096 < length (undominated rows.items)) }
{
    let signed = signs_among(alloc, &rows)?;
    let Some(left) = left_among(alloc, &signed, &rows)? else {
        return Ok(None);
    };
    Ok(Some(picked(alloc, rows, &left)?))
}
