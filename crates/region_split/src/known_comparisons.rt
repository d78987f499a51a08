//! Comparisons of numbers whose rows for both answers are known.

ghost use Rattle.std.specs.Prelude.{◌≡◌, List, true, false, IfOk, IfSome, IsTrue};
ghost use Rattle.heylo_formula.specs.declared.types.Ty.{Ty as PlainTy};
ghost use Rattle.linear_form.specs.PlainPaths.{atom_of};
ghost use Rattle.linear_values.specs.PlainValues.{lin_of};
ghost use Rattle.region_split.specs.internal.KnownComparisons.{IsKnownQuestion, IsRecalled};
ghost use Rattle.region_split.specs.internal.KnownComparisons.{IsRowOf, question_of};

use crate::answer_rows::AnswerRows;
use crate::clashes::clash;
use crate::moved_multipliers::is_same_row;
use heyvl_num::Frac;
use linear_form::Atom;
use linear_rows::Row;
use linear_values::Lin;
use linear_values::lin::copy;
use std::alloc::{AllocError, Global};

/// A comparison that a walk has asked, and the rows of both answers, which exclude each other.
#[derive(Drop)]
pub struct Known {
    /// The linear value that is compared with 0.
    pub left: Lin,
    /// True for `left < 0`, false for `left <= 0`.
    pub strict: bool,
    /// The row of the answer yes.
    pub yes: Row,
    /// The row of the answer no.
    pub no: Row,
    /// The number of the first comparison of the walk with one of these rows.
    pub first: usize,
}

/// An answer that a path has given before, and the index of its row.
#[derive(Clone, Copy)]
pub struct Recalled {
    pub held: bool,
    pub index: usize,
}

/// Returns a copy of `row`.
pub fn copy_row(alloc: Global, row: &Row) -> Result<Row, AllocError>
    ensures { IfOk result (λ r. r ≡ row.now) }
{
    Ok(Row {
        terms: Vec::from_slice(alloc, &row.terms)?,
        rest: row.rest,
        strict: row.strict,
    })
}

/// Returns the comparison with the rows of its answers, or None if the rows do not exclude each
/// other; `first` is the number of the first comparison with one of these rows.
pub fn make_known(
    alloc: Global,
    atom: &Atom,
    rows: AnswerRows,
    first: usize,
) -> Result<Option<Known>, AllocError>
    ensures known { (types : List PlainTy) → IsRowOf types (atom_of atom.now) true rows.yes
        → IsRowOf types (atom_of atom.now) false rows.no
        → IfOk result (λ k. IfSome k (λ k. IsKnownQuestion types k)) }
    ensures asked { IfOk result (λ k. IfSome k (λ k. question_of k ≡ atom_of atom.now)) }
{
    let Atom::Row(left, strict) = atom else {
        return Ok(None);
    };
    if !clash(&rows.yes, &rows.no) {
        return Ok(None);
    }
    if !clash(&rows.no, &rows.yes) {
        return Ok(None);
    }
    Ok(Some(Known {
        left: copy(alloc, left)?,
        strict: *strict,
        yes: rows.yes,
        no: rows.no,
        first,
    }))
}

fn are_same_value_terms(a: &[(u32, Frac)], b: &[(u32, Frac)]) -> bool
    ensures { IsTrue result → a.now ≡ b.now }
{
    let mut first = a;
    let mut second = b;
    'terms: while let Some((term, more)) = first.split_first() {
        let Some((other, rest)) = second.split_first() else {
            return false;
        };
        if term.0 != other.0 || term.1 != other.1 {
            return false;
        }
        first = more;
        second = rest;
    }
    second.is_empty()
}

fn is_same_value(a: &Lin, b: &Lin) -> bool
    ensures { IsTrue result → lin_of a.now ≡ lin_of b.now }
{
    a.rest == b.rest && are_same_value_terms(&a.terms, &b.terms)
}

/// Returns whether `known` is the comparison `atom`.
pub fn asks(known: &Known, atom: &Atom) -> bool
    ensures { IsTrue result → question_of known.now ≡ atom_of atom.now }
{
    match atom {
        Atom::Truth(_) => false,
        Atom::Row(left, strict) => known.strict == *strict && is_same_value(&known.left, left),
    }
}

/// Returns the row of the answer `held`.
pub fn row_of(known: &Known, held: bool) -> &Row
    ensures { (types : List PlainTy) → IsKnownQuestion types known.now
        → IsRowOf types (question_of known.now) held result.now }
{
    if held { &known.yes } else { &known.no }
}

/// Returns the answer whose row is at `index` of `rows`, if one of the two is.
pub fn answer(known: &Known, rows: &[Row], index: usize) -> Option<Recalled>
    ensures { (types : List PlainTy) → IsKnownQuestion types known.now
        → IfSome result (IsRecalled types rows.now (question_of known.now)) }
{
    if index >= rows.len() {
        return None;
    }
    if is_same_row(&rows[index], &known.yes) {
        return Some(Recalled { held: true, index });
    }
    if is_same_row(&rows[index], &known.no) {
        return Some(Recalled { held: false, index });
    }
    None
}
