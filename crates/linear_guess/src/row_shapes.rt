//! Quick comparison of the terms of rows. Untrusted: it only saves full comparisons.
use linear_rows::Row;

/// The number of terms of a row, the variable of the first one, and whether its coefficient is
/// below 0.
#[derive(Clone, Copy)]
pub(crate) struct Shape {
    count: usize,
    variable: u32,
    negative: bool,
}

impl Shape {
    /// Returns the shape of `row`.
    pub(crate) fn of(row: &Row) -> Shape {
        let (variable, coefficient) = match row.terms.first() {
            Some(&term) => term,
            None => (0, 0),
        };
        Shape {
            count: row.terms.len(),
            variable,
            negative: coefficient < 0,
        }
    }

    /// Returns whether two rows may have the same terms.
    pub(crate) fn is_like(self, other: Shape) -> bool {
        self.count == other.count
            && self.variable == other.variable
            && self.negative == other.negative
    }

    /// Returns whether the terms of two rows may be opposite.
    pub(crate) fn is_opposite(self, other: Shape) -> bool {
        self.count == other.count
            && self.variable == other.variable
            && self.negative != other.negative
    }
}
