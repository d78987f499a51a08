//! The laws of the rows of a path. Each function does nothing: its contract is the law.

ghost use Rattle.linear_form.specs.RowListLaws as law;

/// States that the variables of the rows of a typed goal have types of numbers.
pub fn rows_are_numeric()
    ensures { law.RowsAreNumeric }
{}

/// States that the rows without the denied goal are among the rows with it, in the same order, and
/// that the row of the denied goal follows those of the answers.
pub fn denied_rows_are_more()
    ensures among { law.DeniedRowsAreMore }
    ensures solvable { law.DeniedRowsAreStronger }
    ensures places { law.DeniedGoalMakesRoom }
{}

/// States that each answered comparison of numbers has one row, and that the rows of a path begin
/// with the rows of each shorter path.
pub fn path_rows_grow()
    ensures counted { law.PathRowsAreCounted }
    ensures first { law.FirstPathRows }
    ensures last { law.LastPathRow }
{}

/// States that an answer whose row is already among the rows of a path keeps the path solvable, and
/// what the rows of the path with the opposite answer are.
pub fn repeated_rows_stand()
    ensures { law.RepeatedRowsStand }
{}
