//! A search for proposals along a path, which records what it found for the rows of the path.
ghost use Rattle.std.specs.Prelude.{◌≡◌, ◌≤◌, List, IfOk, length, take};
ghost use Rattle.std.specs.List.{All};
ghost use Rattle.linear_rows.specs.Row.{Row as PlainRow, IsRow};
ghost use Rattle.linear_guess.specs.Findings.{IsFinding};
ghost use Rattle.linear_guess.specs.Spots.{AreMetBy};
ghost use Rattle.linear_guess.specs.Searches.{IsKnown, Remembers};

use crate::findings::{Finding, refuted_by};
use crate::known_points::{KnownPoint, least, truncate_each};
use crate::listed_rows::Listing;
use crate::simplex::{Proposal, Simplex};
use crate::spots::{Spot, is_met, met_from, solved_by};
use linear_rows::Row;
use std::alloc::{AllocError, Global};

/// The records of a search: the point in use; the earlier points that are known to satisfy fewer
/// rows, the oldest first; the tightest rows; and the tableau of the last simplex search.
#[derive(Drop)]
pub struct Search {
    known: KnownPoint,
    earlier: Vec<KnownPoint>,
    listing: Listing,
    simplex: Simplex,
}

/// Returns multipliers of two rows that may combine them to a contradiction: a listed row, and one
/// from index `from` on that the point `known` violates.
fn pair_of(
    alloc: Global,
    rows: &[Row],
    listing: &Listing,
    known: &Spot,
    from: usize,
) -> Result<Option<Vec<(u32, u64)>>, AllocError> {
    for i in from..rows.len() {
        if !is_met(&rows[i], known.below, &known.tops) {
            if let Some(multipliers) = listing.against(alloc, rows, i)? {
                return Ok(Some(multipliers));
            }
        }
    }
    Ok(None)
}

impl Search {
    /// Returns a search without rows; the point in use is the origin.
    pub fn new(alloc: Global) -> Search
        ensures { (rows : List PlainRow) → Remembers result rows }
    {
        Search {
            known: KnownPoint {
                spot: Spot::origin(alloc),
                met: 0,
            },
            earlier: Vec::new(alloc),
            listing: Listing::new(alloc),
            simplex: Simplex::new(alloc),
        }
    }

    /// Removes what is known of the rows from index `len` on, so that other rows may follow.
    pub fn truncate(&mut self, len: usize)
        ensures { (before after : List PlainRow) → Remembers self.old before
            → take len before ≡ take len after → Remembers self.new after }
    {
        self.forget(len);
        self.listing.truncate(len);
        self.simplex.truncate(len);
    }

    /// Removes what is known of the points from row `len` on, and returns to the oldest point that
    /// is as good as the one in use.
    fn forget(&mut self, len: usize)
        ensures { (before after : List PlainRow) → Remembers self.old before
            → take len before ≡ take len after → Remembers self.new after }
    {
        self.known.truncate(len);
        truncate_each(&mut self.earlier, len);
        self.go_back();
    }

    /// Returns to the oldest of the points that are known to satisfy as many rows as the one in
    /// use: it may satisfy a row that the one in use violates.
    fn go_back(&mut self)
        ensures { (rows : List PlainRow) → Remembers self.old rows → Remembers self.new rows }
    {
        for _ in 0..self.earlier.len() {
            if !self.is_matched() {
                break;
            }
            self.take_up();
        }
    }

    /// Returns whether the previous point is known to satisfy as many rows as the one in use.
    fn is_matched(&self) -> bool {
        match self.earlier.last() {
            Some(point) => point.met >= self.known.met,
            None => false,
        }
    }

    /// Returns to the previous point.
    fn take_up(&mut self)
        ensures { (rows : List PlainRow) → Remembers self.old rows → Remembers self.new rows }
    {
        if let Some(point) = self.earlier.pop() {
            self.known = point;
        }
    }

    /// Puts `point` in use. The previous point is kept if it is known to satisfy fewer rows, so
    /// there are at most as many points as rows.
    fn put(&mut self, point: KnownPoint) -> Result<(), AllocError>
        ensures { (rows : List PlainRow) → Remembers self.old rows → IsKnown rows point
            → Remembers self.new rows }
    {
        let before = std::mem::replace(&mut self.known, point);
        if before.met < self.known.met {
            self.earlier.push(before)?;
        }
        Ok(())
    }

    /// Returns how many of the first rows the point in use satisfies, and records this up to row
    /// `kept`.
    fn advance(&mut self, rows: &[Row], kept: usize) -> usize
        requires { Remembers self.old rows.now }
        ensures within { result ≤ length rows.now }
        ensures met { AreMetBy self.new.known.spot.below self.new.known.spot.tops.items
            (take result rows.now) }
        ensures remembered { Remembers self.new (take kept rows.now) }
    {
        self.forget(kept);
        let met = met_from(rows, &self.known.spot, self.known.met);
        self.known.met = least(met, kept);
        met
    }

    /// Finds out whether the rows `rows`, with variables below `count`, have a solution; `Open` is
    /// always allowed. The first `kept` rows are those of a path, and the search records what it
    /// finds for them; the others are used only in this call.
    pub fn find(
        &mut self,
        alloc: Global,
        rows: &[Row],
        kept: usize,
        count: usize,
    ) -> Result<Finding, AllocError>
        requires rows { All IsRow rows.now }
        requires remembered { Remembers self.old rows.now }
        ensures finding { IfOk result (λ f. IsFinding rows.now f) }
        ensures remembered { Remembers self.new (take kept rows.now) }
    {
        let met = self.advance(rows, kept);
        if met == rows.len() {
            solved_by(&self.known.spot, rows);
            return Ok(Finding::Met);
        }
        self.listing.look(rows, least(kept, rows.len()))?;
        if let Some(multipliers) = pair_of(alloc, rows, &self.listing, &self.known.spot, met)? {
            return Ok(refuted_by(rows, multipliers));
        }
        match self.proposed(alloc, rows, kept, count)? {
            Proposal::Multipliers(multipliers) => Ok(refuted_by(rows, multipliers)),
            Proposal::Point(spot) => self.with_point(rows, kept, spot),
            Proposal::Nothing => Ok(Finding::Open),
        }
    }

    /// Returns the proposal of a simplex search over the listed rows, and those from index `kept`
    /// on.
    fn proposed(
        &mut self,
        alloc: Global,
        rows: &[Row],
        kept: usize,
        count: usize,
    ) -> Result<Proposal, AllocError>
        ensures { (before : List PlainRow) → Remembers self.old before → Remembers self.new before }
    {
        self.listing.choose(rows, kept)?;
        let proposal = self
            .simplex
            .propose(alloc, rows, &self.listing.chosen, count)?;
        self.simplex.truncate(kept);
        Ok(proposal)
    }

    /// Tests the proposed point `spot`, and puts it in use if it satisfies the rows.
    fn with_point(&mut self, rows: &[Row], kept: usize, spot: Spot) -> Result<Finding, AllocError>
        requires remembered { Remembers self.old (take kept rows.now) }
        ensures finding { IfOk result (λ f. IsFinding rows.now f) }
        ensures remembered { Remembers self.new (take kept rows.now) }
    {
        let met = met_from(rows, &spot, 0);
        if spot.below == 0 || met < rows.len() {
            return Ok(Finding::Open);
        }
        solved_by(&spot, rows);
        self.put(KnownPoint {
            spot,
            met: least(met, kept),
        })?;
        Ok(Finding::Met)
    }
}
