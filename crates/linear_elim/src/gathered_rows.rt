//! Rows that are tidied while they are added.
ghost use Rattle.std.specs.Prelude.{◌≡◌, ◌<◌, ◌++◌, ◌∷◌, [], IfOk, not};
ghost use Rattle.linear_rows.specs.SameTerms.{same_terms};
ghost use Rattle.linear_elim.specs.Steps.{is_stronger, is_contradiction, has_terms, put_row};
ghost use Rattle.linear_elim.specs.internal.Places.{IsPlace};
ghost use Rattle.linear_elim.specs.internal.Fingerprints.{ArePlaces};
ghost use Rattle.linear_elim.specs.internal.GatheredRows.{found_after, rows_after};

use crate::fingerprints::fingerprint;
use crate::joins::Derived;
use linear_rows::have_same_terms;
use std::alloc::{AllocError, Global};
use std::collections::HashMap;

fn are_alike(a: &Derived, b: &Derived) -> bool
    ensures { result ≡ same_terms a.now.row.terms b.now.row.terms }
{
    let left = &a.row;
    let right = &b.row;
    have_same_terms(&left.terms, &right.terms)
}

/// Returns whether `r` has a larger constant than `k`, or the same constant and only `r` is strict.
fn is_stronger_than(r: &Derived, k: &Derived) -> bool
    ensures { result ≡ is_stronger r.now.row k.now.row }
{
    let row = &r.row;
    let other = &k.row;
    if other.rest < row.rest {
        return true;
    }
    if other.rest == row.rest {
        return row.strict && !other.strict;
    }
    false
}

/// Returns whether the row has no variables and is false.
pub(crate) fn contradicts(r: &Derived) -> bool
    ensures { result ≡ is_contradiction r.now.row }
{
    let row = &r.row;
    if !row.terms.is_empty() {
        return false;
    }
    if row.rest > 0 {
        return true;
    }
    row.rest == 0 && row.strict
}

/// Returns the index of the first row with the same terms, or the number of rows.
fn place_of(rows: &[Derived], r: &Derived) -> usize
    ensures { IsPlace r.now rows.now result }
{
    for i in 0..rows.len() {
        if are_alike(&rows[i], r) {
            return i;
        }
    }
    rows.len()
}

/// Returns the index of the first row with the same terms, or the number of rows, by its
/// fingerprint.
fn place_in(places: &HashMap<u64, usize>, rows: &[Derived], r: &Derived) -> usize
    requires { ArePlaces places.now rows.now }
    ensures { IsPlace r.now rows.now result }
{
    let row = &r.row;
    let key = fingerprint(&row.terms);
    match places.get(&key).copied() {
        None => rows.len(),
        Some(place) => {
            if are_alike(&rows[place], r) {
                place
            } else {
                place_of(rows, r)
            }
        }
    }
}

/// Appends a row, and records its index if its fingerprint is new.
fn push_row(
    places: &mut HashMap<u64, usize>,
    rows: &mut Vec<Derived>,
    r: Derived,
) -> Result<(), AllocError>
    requires { ArePlaces places.old rows.old.items }
    ensures rows { IfOk result (λ _. rows.new.items ≡ rows.old.items ++ r ∷ []) }
    ensures places { IfOk result (λ _. ArePlaces places.new rows.new.items) }
{
    let row = &r.row;
    let key = fingerprint(&row.terms);
    if !places.contains_key(&key) {
        places.insert(key, rows.len())?;
    }
    rows.push(r)?;
    Ok(())
}

/// Adds a row: of two rows with the same terms the stronger one stays, at the place of the first.
fn put_row(
    places: &mut HashMap<u64, usize>,
    rows: &mut Vec<Derived>,
    r: Derived,
) -> Result<(), AllocError>
    requires { ArePlaces places.old rows.old.items }
    ensures rows { IfOk result (λ _. rows.new.items ≡ put_row r rows.old.items) }
    ensures places { IfOk result (λ _. ArePlaces places.new rows.new.items) }
{
    let place = place_in(places, rows, &r);
    if place == rows.len() {
        push_row(places, rows, r)?;
    } else if is_stronger_than(&r, &rows[place]) {
        rows[place] = r;
    }
    Ok(())
}

/// Tidied rows, and the first contradiction among those that were added. `places` has the index of
/// the first row with each fingerprint.
#[derive(Drop)]
pub struct Gathering {
    pub found: Option<Derived>,
    pub rows: Vec<Derived>,
    pub(crate) places: HashMap<u64, usize>,
}

pub(crate) fn has_no_terms(r: &Derived) -> bool
    ensures { result ≡ not (has_terms r.now.row.terms) }
{
    let row = &r.row;
    row.terms.is_empty()
}

impl Gathering {
    /// Returns an empty gathering.
    pub fn new(alloc: Global) -> Gathering
        ensures found { result.found ≡ None }
        ensures rows { result.rows.items ≡ [] }
        ensures places { ArePlaces result.places result.rows.items }
    {
        Gathering {
            found: None,
            rows: Vec::new(alloc),
            places: HashMap::new(alloc),
        }
    }

    /// Adds a row.
    pub fn put(&mut self, r: Derived) -> Result<(), AllocError>
        requires { ArePlaces self.old.places self.old.rows.items }
        ensures found { IfOk result (λ _. self.new.found ≡ found_after r self.old.found) }
        ensures rows { IfOk result (λ _. self.new.rows.items ≡ rows_after r self.old.rows.items) }
        ensures places { IfOk result (λ _. ArePlaces self.new.places self.new.rows.items) }
    {
        if has_no_terms(&r) {
            if self.found.is_none() && contradicts(&r) {
                self.found = Some(r);
            }
        } else {
            put_row(&mut self.places, &mut self.rows, r)?;
        }
        Ok(())
    }
}
