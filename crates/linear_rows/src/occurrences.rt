//! The first row in which each variable occurs, kept up to date while rows are added and removed.

ghost use Rattle.std.specs.Prelude.{◌≡◌, ◌<◌, ℕ, List, [], ◌∷◌, ◌++◌, Some, None, IfOk, take};
ghost use Rattle.std.specs.Prelude.{length, get_or, eqb, if◌then◌else◌};
ghost use Rattle.std.specs.List.{list_any};
ghost use Rattle.std.specs.Option.{option_or};
ghost use Rattle.linear_rows.specs.Row.{Row as PlainRow};
ghost use Rattle.linear_rows.specs.Occurrences.{AreOccurrences};
ghost use Rattle.linear_rows.specs.VariableOrder.{occurs_in_row};
ghost use Rattle.linear_rows.specs.internal.FirstRows.{here, before};

use crate::row::Row;
use std::alloc::{AllocError, Global};

/// For each variable of a goal, the first row of a list in which the variable occurs.
#[derive(Drop)]
pub struct Occurrences {
    /// At place `x`: the variable `x` and the index of the row, or None if `x` occurs in no row.
    first: Vec<Option<(u32, usize)>>,
}

impl Occurrences {
    /// Returns the table of `count` variables and no rows.
    pub fn new(alloc: Global, count: usize) -> Result<Occurrences, AllocError>
        ensures { IfOk result (λ o. AreOccurrences count [] o) }
    {
        Ok(Occurrences {
            first: vec![in alloc; None; count]?,
        })
    }

    /// Adds the rows from index `from` on; the rows before `from` are in the table already.
    /// Variables from the table's count on are ignored.
    pub fn note(&mut self, rows: &[Row], from: usize)
        ensures { (count : ℕ) → AreOccurrences count (take from rows.now) self.old
            → AreOccurrences count rows.now self.new }
    {
        for i in from..rows.len() {
            self.note_row(&rows[i], i);
        }
    }

    /// Adds `row` at `index`; the rows before `index` are in the table already.
    fn note_row(&mut self, row: &Row, index: usize)
        ensures { (count : ℕ) (rows : List PlainRow) → AreOccurrences count rows self.old
            → length rows ≡ index → AreOccurrences count (rows ++ (row.now ∷ [])) self.new }
    {
        note_terms(&mut self.first, &row.terms, index);
    }

    /// Removes the rows from index `len` on.
    pub fn truncate(&mut self, len: usize)
        ensures { (count : ℕ) (rows : List PlainRow) → AreOccurrences count rows self.old
            → AreOccurrences count (take len rows) self.new }
    {
        forget(&mut self.first, len);
    }

    /// Returns the variable `x` if it occurs in a row, else None.
    pub fn variable(&self, x: usize) -> Option<u32>
        ensures { (count : ℕ) (rows : List PlainRow) → AreOccurrences count rows self.now
            → x < count → result ≡ (if list_any (occurs_in_row x) rows then Some x else None) }
    {
        match self.first.get(x) {
            Some(Some((variable, _))) => Some(*variable),
            Some(None) => None,
            None => None,
        }
    }
}

/// Records `row` as the first row of each variable of `terms` that has none.
fn note_terms(first: &mut [Option<(u32, usize)>], terms: &[(u32, i64)], row: usize)
    ensures length { length first.new ≡ length first.old }
    ensures each { (x : ℕ) → x < length first.old
        → get_or first.new x None
        ≡ option_or (get_or first.old x None) (here x row (list_any (λ t. eqb t.0 x) terms.now)) }
{
    for term in terms {
        note_variable(first, term.0, row);
    }
}

/// Records `row` as the first row of `variable`, if `variable` has none.
fn note_variable(first: &mut [Option<(u32, usize)>], variable: u32, row: usize)
    ensures length { length first.new ≡ length first.old }
    ensures each { (x : ℕ) → x < length first.old
        → get_or first.new x None
        ≡ option_or (get_or first.old x None) (here x row (eqb variable x)) }
{
    let x = variable as usize;
    if x < first.len() {
        first[x] = first[x].or(Some((variable, row)));
    }
}

/// Removes the entries whose row is at `len` or after it.
fn forget(first: &mut [Option<(u32, usize)>], len: usize)
    ensures length { length first.new ≡ length first.old }
    ensures each { (x : ℕ) → x < length first.old
        → get_or first.new x None ≡ before len (get_or first.old x None) }
{
    for x in 0..first.len() {
        first[x] = kept(first[x], len);
    }
}

/// Returns `first` if its row is before `len`, else None.
fn kept(first: Option<(u32, usize)>, len: usize) -> Option<(u32, usize)>
    ensures { result ≡ before len first }
{
    match first {
        Some((variable, row)) => {
            if row < len {
                Some((variable, row))
            } else {
                None
            }
        }
        None => None,
    }
}
