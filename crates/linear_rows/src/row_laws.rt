//! The laws of rows. The function does nothing: its contract is the law.

ghost use Rattle.linear_rows.specs.RowLaws as law;

/// States that rows with a contradiction have no solution, and that solvable rows have a solution
/// over a common denominator.
pub fn solutions_of_rows()
    ensures contradictions { law.ContradictionsExclude }
    ensures points { law.PointsSuffice }
{}
