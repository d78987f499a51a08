//! The first rows, and the plain elimination.
ghost use Rattle.std.specs.Prelude.{◌≡◌, ◌<◌, ◌^◌, ◌∷◌, [], true, length, IfOk};
ghost use Rattle.std.specs.List.{All};
ghost use Rattle.linear_rows.specs.Terms.{IsOver};
ghost use Rattle.linear_rows.specs.Row.{IsRow};
ghost use Rattle.linear_elim.specs.Steps.{contradiction, tidied};
ghost use Rattle.linear_elim.specs.Elimination.{start, elimination, elimination_by, own};
ghost use Rattle.linear_elim.specs.Elimination.Rule.{drops};
ghost use Rattle.linear_elim.specs.internal.Outcomes.{outcome_of, Decided};

use crate::elimination::{Run, eliminate_from};
use crate::gathered_rows::Gathering;
use crate::joins::Derived;
use linear_rows::Row;
use std::alloc::{AllocError, Global};

/// Returns a first row as a combination of itself.
fn own_row(alloc: Global, index: u32, row: &Row) -> Result<Derived, AllocError>
    ensures { IfOk result (λ d. d ≡ own index row.now) }
{
    let terms = Vec::from_slice(alloc, &row.terms)?;
    let mut shares: Vec<(u32, i64)> = Vec::new(alloc);
    shares.push((index, 1))?;
    let copy = Row {
        terms,
        rest: row.rest,
        strict: row.strict,
    };
    Ok(Derived {
        row: copy,
        shares,
        over: 1,
    })
}

/// Returns the first rows, tidied.
pub(crate) fn first_rows(alloc: Global, rows: &[Row]) -> Result<Gathering, AllocError>
    requires { length rows.now < 2 ^ 32 }
    ensures found { IfOk result (λ g. g.found ≡ contradiction (start 0 rows.now)) }
    ensures rows { IfOk result (λ g. g.rows.items ≡ tidied (start 0 rows.now)) }
{
    let mut out = Gathering::new(alloc);
    for i in 0..rows.len() {
        let derived = own_row(alloc, i as u32, &rows[i])?;
        out.put(derived)?;
    }
    Ok(out)
}

/// Eliminates the variables of `rows` in `order`: a contradiction, only if the rows have no
/// solution; the steps, only if they have one; or a limit.
pub fn contradiction_or_steps(alloc: Global, rows: &[Row], order: &[u32]) -> Result<Run, AllocError>
    requires rows { All IsRow rows.now }
    requires few { length rows.now < 2 ^ 32 }
    requires short { length order.now < 2 ^ 32 }
    requires over { All (λ r. IsOver order.now r.terms) rows.now }
    ensures plain { IfOk result (λ r. outcome_of r.end ≡ elimination order.now rows.now) }
    ensures decided { IfOk result (λ r. Decided rows.now r.end) }
    ensures same { IfOk result (λ r. r.same ≡ true
        → elimination_by drops order.now rows.now ≡ elimination order.now rows.now) }
{
    let start = first_rows(alloc, rows)?;
    eliminate_from(alloc, order, 0, Vec::new(alloc), start)
}
