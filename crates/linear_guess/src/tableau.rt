//! The tableau of a simplex search: a line for each variable, over the columns. Untrusted:
//! proposals are tested.
use crate::lines::{Line, Value, common_denominator, common_multiple, exchange_lines, quotient};
use crate::spots::Spot;
use crate::watched_rows::{Watched, bit_of};
use linear_rows::Row;
use std::alloc::{AllocError, Global};

/// The meaning of a column. Its value is 0 at the point of a tableau.
#[derive(Clone, Copy)]
pub(crate) enum Head {
    /// A value that may be above or below 0.
    Free,
    /// The left side of the row at an index.
    Side(u32),
    /// The negative of a variable. It may be above or below 0, unless the variable has a sign row.
    Sign(u32),
}

/// The left side of a row at the point of a tableau, times the denominator: a constant, and the
/// multiple of a small positive number.
#[derive(Clone, Copy)]
pub(crate) struct Side {
    pub(crate) constant: i128,
    pub(crate) small: i128,
}

impl Side {
    /// Returns whether the row is satisfied.
    pub(crate) fn is_met(self) -> bool {
        self.constant < 0 || (self.constant == 0 && self.small <= 0)
    }
}

/// The value of a variable at the point of a tableau, times the denominator, and the evaluation
/// since which it is the same.
#[derive(Clone, Copy)]
struct Entry {
    value: Value,
    since: u64,
}

/// The left side of a row at the point of a tableau, and the evaluation at which it was computed, 0
/// if there is none.
#[derive(Clone, Copy)]
struct Noted {
    side: Side,
    turn: u64,
}

/// A line for each variable that has occurred in rows, with the variable's number in `names`.
/// `places` has the place of each variable's line plus 1, or 0 if it has none. `values` are at the
/// tableau's point, times `over`; `since` is the evaluation since which `over` is the same. `sides`
/// are the left sides of rows as computed last. `turn` is the number of evaluations, and `changes`
/// has the bits of the variables whose values have changed.
#[derive(Drop)]
pub(crate) struct Tableau {
    places: Vec<usize>,
    pub(crate) columns: Vec<Head>,
    lines: Vec<Line>,
    names: Vec<u32>,
    values: Vec<Entry>,
    over: i64,
    since: u64,
    sides: Vec<Noted>,
    turn: u64,
    changes: u64,
}

/// Returns `sum + a * b`. It wraps at 128 bits, because the result is only used for a proposal.
fn with_product(sum: i128, a: i64, b: i64) -> i128 {
    sum.wrapping_add(i128::from(a).wrapping_mul(i128::from(b)))
}

/// Returns the line of a variable that is a column or the negative of one.
fn first_line(alloc: Global, place: usize, number: i64) -> Result<Line, AllocError> {
    let mut numbers: Vec<i64> = vec![in alloc; 0; place]?;
    numbers.push(number)?;
    Ok(Line {
        numbers,
        constant: 0,
        small: 0,
        over: 1,
        changed: true,
    })
}

impl Tableau {
    /// Returns the tableau without variables.
    pub(crate) fn new(alloc: Global) -> Tableau {
        Tableau {
            places: Vec::new(alloc),
            columns: Vec::new(alloc),
            lines: Vec::new(alloc),
            names: Vec::new(alloc),
            values: Vec::new(alloc),
            over: 1,
            since: 0,
            sides: Vec::new(alloc),
            turn: 0,
            changes: 0,
        }
    }

    /// Returns whether no variable has a line.
    pub(crate) fn is_empty(&self) -> bool {
        self.lines.is_empty()
    }

    /// Returns the line of `x`, if it has one.
    fn line_of(&self, x: usize) -> Option<&Line> {
        let place = self.places.get(x)?.checked_sub(1)?;
        self.lines.get(place)
    }

    /// Extends the lists to `count` variables and `rows` rows.
    pub(crate) fn reserve(&mut self, count: usize, rows: usize) -> Result<(), AllocError> {
        for _ in self.places.len()..count {
            self.places.push(0)?;
        }
        for _ in self.values.len()..count {
            self.values.push(Entry {
                value: Value::zero(),
                since: 0,
            })?;
        }
        for _ in self.sides.len()..rows {
            self.sides.push(Noted {
                side: Side {
                    constant: 0,
                    small: 0,
                },
                turn: 0,
            })?;
        }
        Ok(())
    }

    /// Returns whether the left side of the row at `index` was computed, so that its variables have
    /// lines.
    pub(crate) fn is_noted(&self, index: usize) -> bool {
        match self.sides.get(index) {
            Some(noted) => noted.turn > 0,
            None => false,
        }
    }

    /// Returns whether `x` has a line.
    pub(crate) fn has_line(&self, x: u32) -> bool {
        match self.places.get(x as usize) {
            Some(place) => *place > 0,
            None => false,
        }
    }

    /// Adds a column and a line for `x`, if it has none.
    pub(crate) fn put_variable(
        &mut self,
        alloc: Global,
        x: u32,
        is_signed: bool,
    ) -> Result<(), AllocError> {
        if let Some(place) = self.places.get_mut(x as usize) {
            if *place == 0 {
                let (head, number) = if is_signed {
                    (Head::Sign(x), -1)
                } else {
                    (Head::Free, 1)
                };
                self.lines
                    .push(first_line(alloc, self.columns.len(), number)?)?;
                self.names.push(x)?;
                self.columns.push(head)?;
                *place = self.lines.len();
            }
        }
        Ok(())
    }

    /// Frees the columns of the rows from index `len` on, and removes their left sides.
    pub(crate) fn truncate(&mut self, len: usize) {
        self.sides.truncate(len);
        for i in 0..self.columns.len() {
            if let Head::Side(row) = self.columns[i] {
                if row as usize >= len {
                    self.columns[i] = Head::Free;
                }
            }
        }
    }

    /// Sets the denominator of the values, and returns whether it has changed.
    fn put_over(&mut self, over: i64) -> bool {
        let other = over != self.over;
        if other {
            self.over = over;
            self.since = self.turn;
            self.changes = u64::MAX;
        }
        other
    }

    /// Sets the value of `x`.
    fn put_value(&mut self, x: u32, value: Value) {
        if let Some(entry) = self.values.get_mut(x as usize) {
            if !entry.value.is_same(value) {
                *entry = Entry {
                    value,
                    since: self.turn,
                };
                self.changes = self.changes | bit_of(x);
            }
        }
    }

    /// Computes the value of the line at a place. Returns false on overflow.
    fn evaluate_line(&mut self, place: usize) -> bool {
        let (Some(line), Some(&x)) = (self.lines.get_mut(place), self.names.get(place)) else {
            return true;
        };
        line.changed = false;
        let Some(value) = line.value(self.over) else {
            return false;
        };
        self.put_value(x, value);
        true
    }

    /// Returns whether the line at a place has changed since its value was computed.
    fn is_changed(&self, place: usize) -> bool {
        match self.lines.get(place) {
            Some(line) => line.changed,
            None => false,
        }
    }

    /// Computes the values of the variables at the tableau's point. The left sides to be computed
    /// are those that may have changed, or all. Returns false on overflow.
    pub(crate) fn evaluate(&mut self, all: bool) -> bool {
        let Some(over) = common_denominator(&self.lines) else {
            return false;
        };
        self.turn = self.turn.saturating_add(1);
        self.changes = if all { u64::MAX } else { 0 };
        let scaled = self.put_over(over);
        for place in 0..self.lines.len() {
            if scaled || self.is_changed(place) {
                if !self.evaluate_line(place) {
                    return false;
                }
            }
        }
        true
    }

    /// Returns the left side of `row` at the tableau's point, or None if a variable has no value.
    fn side(&self, row: &Row) -> Option<Side> {
        let mut constant = with_product(0, row.rest, self.over);
        let mut small: i128 = if row.strict { i128::from(self.over) } else { 0 };
        for &(x, c) in &row.terms {
            let value = self.values.get(x as usize)?.value;
            constant = with_product(constant, c, value.constant);
            small = with_product(small, c, value.small);
        }
        Some(Side { constant, small })
    }

    /// Returns whether the left side of `row` is the same as at evaluation `turn`.
    fn is_since(&self, row: &Row, turn: u64) -> bool {
        if turn < self.since {
            return false;
        }
        for &(x, _) in &row.terms {
            match self.values.get(x as usize) {
                Some(entry) => {
                    if turn < entry.since {
                        return false;
                    }
                }
                None => return false,
            }
        }
        true
    }

    /// Returns the left side of the sign row of `x`, or None if `x` has no value.
    fn side_of_sign(&self, x: u32) -> Option<Side> {
        let value = self.values.get(x as usize)?.value;
        Some(Side {
            constant: with_product(0, -1, value.constant),
            small: with_product(0, -1, value.small),
        })
    }

    /// Computes and records the left side of the row at `index`. Returns None if a variable has no
    /// value.
    fn note_side(&mut self, rows: &[Row], index: usize) -> Option<Side> {
        let side = self.side(rows.get(index)?)?;
        if let Some(entry) = self.sides.get_mut(index) {
            *entry = Noted {
                side,
                turn: self.turn,
            };
        }
        Some(side)
    }

    /// Returns the left side of `row` at the tableau's point, or None if a variable has no value.
    /// It has to be called after each evaluation.
    pub(crate) fn side_at(&mut self, rows: &[Row], row: Watched) -> Option<Side> {
        if let Some(x) = row.sign {
            return self.side_of_sign(x);
        }
        let noted = *self.sides.get(row.index)?;
        if noted.turn > 0 {
            if row.bits & self.changes == 0 || self.is_since(rows.get(row.index)?, noted.turn) {
                return Some(noted.side);
            }
        }
        self.note_side(rows, row.index)
    }

    /// Returns the recorded left side of `row`.
    fn known_side(&self, row: Watched) -> Option<Side> {
        match row.sign {
            Some(x) => self.side_of_sign(x),
            None => Some(self.sides.get(row.index)?.side),
        }
    }

    /// Returns the least common denominator of the lines of a row's variables, or None on overflow.
    fn denominator(&self, row: &Row) -> Option<i64> {
        let mut over = 1;
        for &(x, _) in &row.terms {
            over = common_multiple(over, self.line_of(x as usize)?.over)?;
        }
        Some(over)
    }

    /// Adds `c` times the line of `x` to `line`, whose denominator is a multiple. Returns None on
    /// overflow.
    fn with_term(&self, line: &mut Line, x: u32, c: i64) -> Option<()> {
        let other = self.line_of(x as usize)?;
        let factor = quotient(line.over, other.over)?.checked_mul(c)?;
        if line.add(factor, other) {
            Some(())
        } else {
            None
        }
    }

    /// Returns the line of a row, or None on overflow.
    pub(crate) fn line(&self, alloc: Global, row: &Row) -> Result<Option<Line>, AllocError> {
        let Some(over) = self.denominator(row) else {
            return Ok(None);
        };
        let Some(constant) = row.rest.checked_mul(over) else {
            return Ok(None);
        };
        let mut line = Line {
            numbers: vec![in alloc; 0; self.columns.len()]?,
            constant,
            small: if row.strict { over } else { 0 },
            over,
            changed: false,
        };
        for &(x, c) in &row.terms {
            if self.with_term(&mut line, x, c).is_none() {
                return Ok(None);
            }
        }
        Ok(if line.reduce() { Some(line) } else { None })
    }

    /// Returns the largest value, at most 1, of the small number at which each row is satisfied: a
    /// numerator and a denominator.
    fn small(&self, watched: &[Watched]) -> Option<(i64, i64)> {
        let mut top: i64 = 1;
        let mut below: i64 = 1;
        for &row in watched {
            let side = self.known_side(row)?;
            if side.small > 0 {
                let constant = i64::try_from(side.constant.checked_neg()?).ok()?;
                let slope = i64::try_from(side.small).ok()?;
                if with_product(0, constant, below) < with_product(0, top, slope) {
                    top = constant;
                    below = slope;
                }
            }
        }
        Some((top, below))
    }

    /// Writes the value of `x` to `tops`, for the small number `top / below`. Returns None on
    /// overflow.
    fn put_top(&self, tops: &mut Vec<i64>, x: u32, top: i64, below: i64) -> Option<()> {
        let value = self.values.get(x as usize)?.value;
        let entry = tops.get_mut(x as usize)?;
        if *entry == 0 && !value.is_same(Value::zero()) {
            let sum = with_product(with_product(0, value.constant, below), value.small, top);
            *entry = i64::try_from(sum).ok()?;
        }
        Some(())
    }

    /// Writes the values of a row's variables to `tops`, for the small number `top / below`.
    /// Returns None on overflow.
    fn put_tops(
        &self,
        tops: &mut Vec<i64>,
        rows: &[Row],
        row: Watched,
        top: i64,
        below: i64,
    ) -> Option<()> {
        if let Some(x) = row.sign {
            return self.put_top(tops, x, top, below);
        }
        for &(x, _) in &rows.get(row.index)?.terms {
            self.put_top(tops, x, top, below)?;
        }
        Some(())
    }

    /// Returns the tableau's point, which satisfies the rows `watched`, with 0 for variables that
    /// do not occur in them, or None on overflow.
    pub(crate) fn point(
        &self,
        alloc: Global,
        rows: &[Row],
        watched: &[Watched],
    ) -> Result<Option<Spot>, AllocError> {
        let Some((top, below)) = self.small(watched) else {
            return Ok(None);
        };
        let mut tops: Vec<i64> = vec![in alloc; 0; self.values.len()]?;
        for &row in watched {
            if self.put_tops(&mut tops, rows, row, top, below).is_none() {
                return Ok(None);
            }
        }
        let Some(below) = self.over.unsigned_abs().checked_mul(below.unsigned_abs()) else {
            return Ok(None);
        };
        Ok(Some(Spot { below, tops }))
    }

    /// Pivots: `head`, whose line is `pivot`, replaces the column at `place`. Returns false on
    /// overflow.
    pub(crate) fn exchange(
        &mut self,
        head: Head,
        pivot: &Line,
        place: usize,
    ) -> Result<bool, AllocError> {
        if let Some(column) = self.columns.get_mut(place) {
            *column = head;
        }
        exchange_lines(&mut self.lines, pivot, place)
    }
}
