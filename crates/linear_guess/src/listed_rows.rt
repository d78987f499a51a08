//! The rows of a path that a search uses: of those with the same terms only the tightest.
//! Untrusted: proposals are tested.
use crate::pairs::clash;
use crate::row_shapes::Shape;
use crate::watched_rows::Watched;
use linear_rows::{Row, have_same_terms};
use std::alloc::{AllocError, Global};

/// A listed row, and its shape.
#[derive(Clone, Copy)]
struct Listed {
    row: Watched,
    shape: Shape,
}

/// A change of the list: the index of the row that was listed, its place, and the row that was
/// there before.
#[derive(Clone, Copy)]
struct Change {
    row: usize,
    place: usize,
    before: Option<Watched>,
}

/// The tightest rows of a path, the changes that led to them, how many rows were read, and the rows
/// that were chosen last.
#[derive(Drop)]
pub struct Listing {
    listed: Vec<Listed>,
    changes: Vec<Change>,
    looked: usize,
    pub(crate) chosen: Vec<Watched>,
}

/// Returns whether `row` is tighter than `other`, which has the same terms.
fn is_tighter(row: &Row, other: &Row) -> bool {
    row.rest > other.rest || (row.rest == other.rest && row.strict && !other.strict)
}

/// Returns whether a listed row has the same terms as `row`.
fn is_alike(listed: Listed, rows: &[Row], row: &Row, shape: Shape) -> bool {
    match rows.get(listed.row.index) {
        Some(other) => listed.shape.is_like(shape) && have_same_terms(&other.terms, &row.terms),
        None => false,
    }
}

/// Returns the place of the listed row with the same terms.
fn place_of(listed: &[Listed], rows: &[Row], row: &Row, shape: Shape) -> Option<usize> {
    for place in 0..listed.len() {
        if is_alike(listed[place], rows, row, shape) {
            return Some(place);
        }
    }
    None
}

impl Listing {
    /// Returns an empty list.
    pub fn new(alloc: Global) -> Listing {
        Listing {
            listed: Vec::new(alloc),
            changes: Vec::new(alloc),
            looked: 0,
            chosen: Vec::new(alloc),
        }
    }

    /// Undoes the last change.
    fn undo(&mut self) {
        if let Some(change) = self.changes.pop() {
            match change.before {
                None => {
                    self.listed.pop();
                }
                Some(row) => {
                    if let Some(listed) = self.listed.get_mut(change.place) {
                        listed.row = row;
                    }
                }
            }
        }
    }

    /// Returns whether the last change listed a row from index `len` on.
    fn is_beyond(&self, len: usize) -> bool {
        match self.changes.last() {
            Some(change) => change.row >= len,
            None => false,
        }
    }

    /// Removes the rows from index `len` on.
    pub fn truncate(&mut self, len: usize) {
        for _ in 0..self.changes.len() {
            if !self.is_beyond(len) {
                break;
            }
            self.undo();
        }
        if self.looked > len {
            self.looked = len;
        }
    }

    /// Lists a row, unless one that is as tight is listed.
    fn put(&mut self, rows: &[Row], index: usize) -> Result<(), AllocError> {
        let Some(row) = rows.get(index) else {
            return Ok(());
        };
        let shape = Shape::of(row);
        match place_of(&self.listed, rows, row, shape) {
            None => {
                self.changes.push(Change {
                    row: index,
                    place: self.listed.len(),
                    before: None,
                })?;
                self.listed.push(Listed {
                    row: Watched::of(index, row),
                    shape,
                })?;
                Ok(())
            }
            Some(place) => self.tighten(rows, row, index, place),
        }
    }

    /// Replaces a listed row by a tighter one.
    fn tighten(
        &mut self,
        rows: &[Row],
        row: &Row,
        index: usize,
        place: usize,
    ) -> Result<(), AllocError> {
        if let Some(listed) = self.listed.get_mut(place) {
            if let Some(other) = rows.get(listed.row.index) {
                if is_tighter(row, other) {
                    self.changes.push(Change {
                        row: index,
                        place,
                        before: Some(listed.row),
                    })?;
                    listed.row = Watched::of(index, row);
                }
            }
        }
        Ok(())
    }

    /// Lists the rows before index `kept` that were not read yet.
    pub fn look(&mut self, rows: &[Row], kept: usize) -> Result<(), AllocError> {
        for index in self.looked..kept {
            self.put(rows, index)?;
        }
        self.looked = kept;
        Ok(())
    }

    /// Returns multipliers of the row at `index` and a listed row that may combine them to a
    /// contradiction.
    pub fn against(
        &self,
        alloc: Global,
        rows: &[Row],
        index: usize,
    ) -> Result<Option<Vec<(u32, u64)>>, AllocError> {
        let Some(row) = rows.get(index) else {
            return Ok(None);
        };
        let shape = Shape::of(row);
        for &other in &self.listed {
            if other.shape.is_opposite(shape) {
                if let Some((p, q)) = clash_at(row, rows, other.row.index) {
                    return multipliers_of(alloc, index, p, other.row.index, q);
                }
            }
        }
        Ok(None)
    }

    /// Chooses the listed rows, and those from index `kept` on.
    pub fn choose(&mut self, rows: &[Row], kept: usize) -> Result<(), AllocError> {
        self.chosen.clear();
        for listed in &self.listed {
            self.chosen.push(listed.row)?;
        }
        for index in kept..rows.len() {
            self.chosen.push(Watched::of(index, &rows[index]))?;
        }
        Ok(())
    }
}

/// Returns the multipliers of `row` and the row at `index`, if they seem to contradict each other.
fn clash_at(row: &Row, rows: &[Row], index: usize) -> Option<(u64, u64)> {
    clash(row, rows.get(index)?)
}

/// Returns the multipliers of two rows, the smaller index first.
fn multipliers_of(
    alloc: Global,
    i: usize,
    p: u64,
    j: usize,
    q: u64,
) -> Result<Option<Vec<(u32, u64)>>, AllocError> {
    let (Ok(first), Ok(second)) = (u32::try_from(i), u32::try_from(j)) else {
        return Ok(None);
    };
    let mut multipliers: Vec<(u32, u64)> = Vec::with_capacity(alloc, 2)?;
    if i < j {
        multipliers.push((first, p))?;
        multipliers.push((second, q))?;
    } else {
        multipliers.push((second, q))?;
        multipliers.push((first, p))?;
    }
    Ok(Some(multipliers))
}
