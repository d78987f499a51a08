//! The results of a search, which are tested.
ghost use Rattle.std.specs.List.{All};
ghost use Rattle.linear_rows.specs.Row.{IsRow};
ghost use Rattle.linear_guess.specs.Findings.{IsFinding};

use linear_rows::{Row, contradicts};

/// The result of a search.
#[derive(Drop)]
pub enum Finding {
    /// The rows have no solution: multipliers, by row index, combine them to a contradiction.
    Refuted(Vec<(u32, u64)>),
    /// The rows have a solution.
    Met,
    /// Nothing was found.
    Open,
}

/// Tests proposed multipliers.
pub(crate) fn refuted_by(rows: &[Row], multipliers: Vec<(u32, u64)>) -> Finding
    requires { All IsRow rows.now }
    ensures { IsFinding rows.now result }
{
    if contradicts(rows, &multipliers) {
        Finding::Refuted(multipliers)
    } else {
        Finding::Open
    }
}
