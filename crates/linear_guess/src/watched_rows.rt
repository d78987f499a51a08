//! The rows of a simplex search. Untrusted.
use linear_rows::Row;

/// A row: its index; its variable if it is a sign row; otherwise a bit for each of its variables.
/// Variables may share a bit, and a row without variables has all bits.
#[derive(Clone, Copy)]
pub(crate) struct Watched {
    pub(crate) index: usize,
    pub(crate) sign: Option<u32>,
    pub(crate) bits: u64,
}

/// Returns the variable of a sign row.
pub(crate) fn sign_of(row: &Row) -> Option<u32> {
    if row.strict || row.rest != 0 || row.terms.len() != 1 {
        return None;
    }
    let &(x, c) = row.terms.first()?;
    if c == -1 { Some(x) } else { None }
}

/// Returns the bit of a variable.
pub(crate) fn bit_of(x: u32) -> u64 {
    let one: u64 = 1;
    one.wrapping_shl(x)
}

/// Returns the bits of a row's variables.
fn bits_of(row: &Row) -> u64 {
    if row.terms.is_empty() {
        return u64::MAX;
    }
    let mut bits: u64 = 0;
    for &(x, _) in &row.terms {
        bits = bits | bit_of(x);
    }
    bits
}

impl Watched {
    /// Returns the row at an index.
    pub(crate) fn of(index: usize, row: &Row) -> Watched {
        match sign_of(row) {
            Some(x) => Watched {
                index,
                sign: Some(x),
                bits: 0,
            },
            None => Watched {
                index,
                sign: None,
                bits: bits_of(row),
            },
        }
    }
}
