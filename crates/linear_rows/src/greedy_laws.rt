//! The laws of the greedy choice. The function does nothing: its contract is the law.

ghost use Rattle.linear_rows.specs.GreedyLaws as law;

/// States that the greedy choice for solvable rows has one outcome, and that rows have at most one
/// greedy point.
pub fn greedy_choices_are_unique()
    ensures choices { law.ChoicesAreUnique }
    ensures points { law.PointsAreUnique }
{}
