//! Multipliers of rows that are a subsequence of other rows.

ghost use Rattle.std.specs.Prelude.{◌≡◌, ◌↔◌, ◌<◌, ◌≤◌, ◌+◌, ◌^◌, IsTrue, IfOk, drop, length};
ghost use Rattle.std.specs.List.{All};
ghost use Rattle.linear_form.specs.RowListLaws.{StandAmong};
ghost use Rattle.region_split.specs.internal.MovedRows.{ArePlaces, place_of, moved_all};

use linear_rows::{Row, have_same_terms};
use std::alloc::{AllocError, Global};

/// Returns whether two rows are equal.
pub fn is_same_row(a: &Row, b: &Row) -> bool
    ensures { IsTrue result ↔ (a.now ≡ b.now) }
{
    a.rest == b.rest && a.strict == b.strict && have_same_terms(&a.terms, &b.terms)
}

/// Returns the indexes of `rows` in `more`, of which they are a subsequence from `from` on.
pub fn places(
    alloc: Global,
    rows: &[Row],
    more: &[Row],
    from: usize,
) -> Result<Vec<u32>, AllocError>
    requires inside { from ≤ length more.now }
    requires among { StandAmong rows.now (drop from more.now) }
    requires few { length more.now < 2 ^ 32 }
    ensures { IfOk result (λ v. ArePlaces from rows.now more.now v.items) }
{
    let mut places: Vec<u32> = Vec::new(alloc);
    let mut at = from;
    'others: while places.len() < rows.len() {
        if is_same_row(&rows[places.len()], &more[at]) {
            places.push(at as u32)?;
        }
        at += 1;
    }
    Ok(places)
}

/// Returns the new index of a row: the first `kept` rows keep their indexes, the others have those
/// of `places`.
fn place(index: u32, kept: usize, places: &[u32]) -> u32
    requires { index < kept + length places.now }
    ensures { result ≡ place_of kept places.now index }
{
    let i = index as usize;
    if i < kept { index } else { places[i - kept] }
}

/// Returns `multipliers` with the new indexes of their rows.
pub fn moved(
    alloc: Global,
    multipliers: &[(u32, u64)],
    kept: usize,
    places: &[u32],
) -> Result<Vec<(u32, u64)>, AllocError>
    requires { All (λ m. m.0 < kept + length places.now) multipliers.now }
    ensures { IfOk result (λ v. v.items ≡ moved_all (place_of kept places.now) multipliers.now) }
{
    let mut out: Vec<(u32, u64)> = Vec::new(alloc);
    for &(index, multiplier) in multipliers {
        out.push((place(index, kept, places), multiplier))?;
    }
    Ok(out)
}
