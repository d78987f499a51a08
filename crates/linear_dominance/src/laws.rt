//! The law of dominated rows. The function does nothing: its contract is the law.

ghost use Rattle.linear_dominance.specs.Laws.{UndominatedRowsTellAll};

/// States that a point that satisfies the rows that no other row dominates satisfies all rows.
pub fn undominated_rows_tell_all()
    ensures { UndominatedRowsTellAll }
{}
