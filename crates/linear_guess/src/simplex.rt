//! A simplex search for a point that satisfies rows, or for multipliers that show that there is
//! none. The tableau is kept from one search to the next. Untrusted: proposals are tested.
use crate::lines::Line;
use crate::spots::Spot;
use crate::tableau::{Head, Tableau};
use crate::watched_rows::{Watched, sign_of};
use heyvl_num::gcd;
use linear_rows::{Row, TooGreat};
use std::alloc::{AllocError, Global};

/// The maximum number of pivots of a search.
const MOST_EXCHANGES: u32 = 1000;

/// The number of pivots for which the row that is violated most is chosen. After that, the first
/// violated row is chosen, so that no tableau repeats.
const HASTY_EXCHANGES: u32 = 50;

/// The proposal of a search.
#[derive(Drop)]
pub(crate) enum Proposal {
    /// Multipliers, by row index, that may combine the rows to a contradiction.
    Multipliers(Vec<(u32, u64)>),
    /// A point that may satisfy the rows.
    Point(Spot),
    /// The search was given up.
    Nothing,
}

/// The result of one pivot.
#[derive(Drop)]
enum Turn {
    /// The search continues.
    On,
    /// The search has ended.
    Done(Proposal),
}

/// The tableau of the last search. `signs` has, for each variable, the index of its sign row plus
/// 1, or 0 if there is none.
#[derive(Drop)]
pub(crate) struct Simplex {
    tableau: Tableau,
    signs: Vec<u32>,
}

/// Sets the multiplier of `row` to the absolute value of `number`.
fn put_share(shares: &mut Vec<u64>, row: u32, number: i64) {
    if let Some(share) = shares.get_mut(row as usize) {
        *share = number.unsigned_abs();
    }
}

/// Returns the greatest common divisor of the numbers.
fn common_divisor(shares: &[u64]) -> u64 {
    let mut common: u64 = 0;
    for &share in shares {
        if share > 0 && common != 1 {
            common = u64::try_from(gcd(u128::from(share), u128::from(common))).unwrap_or(1);
        }
    }
    common
}

/// Returns how many numbers are above 0.
fn count_positive(shares: &[u64]) -> usize {
    let mut count: usize = 0;
    for &share in shares {
        if share > 0 {
            count = count.saturating_add(1);
        }
    }
    count
}

/// Returns the multipliers above 0 with their rows, in lowest terms.
fn in_lowest_terms(alloc: Global, shares: &[u64]) -> Result<Vec<(u32, u64)>, AllocError> {
    let common = common_divisor(shares);
    let mut multipliers: Vec<(u32, u64)> = Vec::with_capacity(alloc, count_positive(shares))?;
    for (i, &share) in shares.iter().enumerate() {
        if share > 0 {
            if let (Ok(row), Some(multiplier)) = (u32::try_from(i), share.checked_div(common)) {
                multipliers.push((row, multiplier))?;
            }
        }
    }
    Ok(multipliers)
}

/// Returns whether a violated row is chosen before the one found so far.
fn is_before(i: usize, constant: i128, found: Option<usize>, most: i128, hasty: bool) -> bool {
    match found {
        None => true,
        Some(other) => { if hasty { constant > most } else { i < other } }
    }
}

/// Returns a row that is violated at the tableau's point: the one with the least index or, if
/// `hasty`, the one that is violated most.
fn violated(
    tableau: &mut Tableau,
    rows: &[Row],
    watched: &[Watched],
    hasty: bool,
) -> Result<Option<usize>, TooGreat> {
    let mut found: Option<usize> = None;
    let mut most: i128 = 0;
    for &row in watched {
        let Some(side) = tableau.side_at(rows, row) else {
            return Err(TooGreat);
        };
        if !side.is_met() && is_before(row.index, side.constant, found, most, hasty) {
            found = Some(row.index);
            most = side.constant;
        }
    }
    Ok(found)
}

impl Simplex {
    /// Returns a simplex without a tableau.
    pub(crate) fn new(alloc: Global) -> Simplex {
        Simplex {
            tableau: Tableau::new(alloc),
            signs: Vec::new(alloc),
        }
    }

    /// Removes the rows from index `len` on.
    pub(crate) fn truncate(&mut self, len: usize) {
        self.tableau.truncate(len);
    }

    /// Clears the table of sign rows, and extends it to `count` variables.
    fn reset_signs(&mut self, count: usize) -> Result<(), AllocError> {
        for x in 0..self.signs.len() {
            self.signs[x] = 0;
        }
        for _ in self.signs.len()..count {
            self.signs.push(0)?;
        }
        Ok(())
    }

    /// Records that the row at `index` is the sign row of `x`.
    fn note_sign(&mut self, x: u32, index: u32) {
        if let Some(sign) = self.signs.get_mut(x as usize) {
            *sign = index.saturating_add(1);
        }
    }

    /// Records the sign rows among `chosen`.
    fn note_signs(&mut self, chosen: &[Watched]) {
        for row in chosen {
            if let (Some(x), Ok(index)) = (row.sign, u32::try_from(row.index)) {
                self.note_sign(x, index);
            }
        }
    }

    /// Returns the index of the sign row of `x`.
    fn sign(&self, x: u32) -> Option<u32> {
        self.signs.get(x as usize)?.checked_sub(1)
    }

    /// Returns the row of a column, or None if its value may be above or below 0.
    fn row_of(&self, head: Head) -> Option<u32> {
        match head {
            Head::Free => None,
            Head::Side(row) => Some(row),
            Head::Sign(x) => self.sign(x),
        }
    }

    /// Adds a column and a line for `x`.
    fn put_variable(&mut self, alloc: Global, x: u32) -> Result<(), AllocError> {
        if !self.tableau.has_line(x) {
            let is_signed = self.sign(x).is_some();
            self.tableau.put_variable(alloc, x, is_signed)?;
        }
        Ok(())
    }

    /// Adds a column and a line for each variable of the row at `index`.
    fn put_variables_of(
        &mut self,
        alloc: Global,
        rows: &[Row],
        index: usize,
    ) -> Result<(), AllocError> {
        if !self.tableau.is_noted(index) {
            if let Some(row) = rows.get(index) {
                for &(x, _) in &row.terms {
                    self.put_variable(alloc, x)?;
                }
            }
        }
        Ok(())
    }

    /// Adds a column and a line for each variable of the rows.
    fn put_variables(
        &mut self,
        alloc: Global,
        rows: &[Row],
        chosen: &[Watched],
    ) -> Result<(), AllocError> {
        for row in chosen {
            match row.sign {
                Some(x) => self.put_variable(alloc, x)?,
                None => self.put_variables_of(alloc, rows, row.index)?,
            }
        }
        Ok(())
    }

    /// Returns a column whose change lowers the line's value: one without a row, otherwise that
    /// with the least row.
    fn entering(&self, line: &Line) -> Option<usize> {
        let mut found: Option<usize> = None;
        let mut least = u32::MAX;
        for (i, &head) in self.tableau.columns.iter().enumerate() {
            let number = line.number(i);
            if number != 0 {
                match self.row_of(head) {
                    None => return Some(i),
                    Some(row) => {
                        if number > 0 && (found.is_none() || row < least) {
                            found = Some(i);
                            least = row;
                        }
                    }
                }
            }
        }
        found
    }

    /// Returns the multipliers, among `count` rows, that the line of a violated row yields.
    fn multipliers(
        &self,
        alloc: Global,
        row: u32,
        line: &Line,
        count: usize,
    ) -> Result<Vec<(u32, u64)>, AllocError> {
        let mut shares: Vec<u64> = vec![in alloc; 0; count]?;
        for (i, &head) in self.tableau.columns.iter().enumerate() {
            if let Some(other) = self.row_of(head) {
                put_share(&mut shares, other, line.number(i));
            }
        }
        put_share(&mut shares, row, line.over);
        in_lowest_terms(alloc, &shares)
    }

    /// Returns the tableau's point, which satisfies the rows.
    fn met(&self, alloc: Global, rows: &[Row], chosen: &[Watched]) -> Result<Proposal, AllocError> {
        match self.tableau.point(alloc, rows, chosen)? {
            Some(spot) => Ok(Proposal::Point(spot)),
            None => Ok(Proposal::Nothing),
        }
    }

    /// Pivots on the violated row at index `at`.
    fn exchange(&mut self, alloc: Global, rows: &[Row], at: usize) -> Result<Turn, AllocError> {
        let (Some(row), Ok(index)) = (rows.get(at), u32::try_from(at)) else {
            return Ok(Turn::Done(Proposal::Nothing));
        };
        let Some(line) = self.tableau.line(alloc, row)? else {
            return Ok(Turn::Done(Proposal::Nothing));
        };
        let Some(place) = self.entering(&line) else {
            let multipliers = self.multipliers(alloc, index, &line, rows.len())?;
            return Ok(Turn::Done(Proposal::Multipliers(multipliers)));
        };
        let head = match sign_of(row) {
            Some(x) => Head::Sign(x),
            None => Head::Side(index),
        };
        if self.tableau.exchange(head, &line, place)? {
            Ok(Turn::On)
        } else {
            Ok(Turn::Done(Proposal::Nothing))
        }
    }

    /// Pivots on a violated row, if there is one, after `turns` pivots.
    fn take_turn(
        &mut self,
        alloc: Global,
        rows: &[Row],
        chosen: &[Watched],
        turns: u32,
    ) -> Result<Turn, AllocError> {
        if !self.tableau.evaluate(turns == 0) {
            return Ok(Turn::Done(Proposal::Nothing));
        }
        match violated(&mut self.tableau, rows, chosen, turns < HASTY_EXCHANGES) {
            Err(TooGreat) => Ok(Turn::Done(Proposal::Nothing)),
            Ok(None) => Ok(Turn::Done(self.met(alloc, rows, chosen)?)),
            Ok(Some(at)) => self.exchange(alloc, rows, at),
        }
    }

    /// Pivots until there is a proposal. If the search is given up, the tableau is cleared.
    fn go_on(
        &mut self,
        alloc: Global,
        rows: &[Row],
        chosen: &[Watched],
        count: usize,
    ) -> Result<Proposal, AllocError> {
        self.tableau.reserve(count, rows.len())?;
        self.put_variables(alloc, rows, chosen)?;
        for turns in 0..MOST_EXCHANGES {
            match self.take_turn(alloc, rows, chosen, turns)? {
                Turn::On => {}
                Turn::Done(Proposal::Nothing) => break,
                Turn::Done(proposal) => return Ok(proposal),
            }
        }
        self.tableau = Tableau::new(alloc);
        Ok(Proposal::Nothing)
    }

    /// Proposes multipliers or a point for the rows `chosen`, with variables below `count`. Starts
    /// from the tableau of the last search, and if that is given up, once more without it.
    pub(crate) fn propose(
        &mut self,
        alloc: Global,
        rows: &[Row],
        chosen: &[Watched],
        count: usize,
    ) -> Result<Proposal, AllocError> {
        self.reset_signs(count)?;
        self.note_signs(chosen);
        if !self.tableau.is_empty() {
            let proposal = self.go_on(alloc, rows, chosen, count)?;
            if !matches!(proposal, Proposal::Nothing) {
                return Ok(proposal);
            }
        }
        self.go_on(alloc, rows, chosen, count)
    }
}
