//! Laws of bounds over runs. Each function does nothing: its contract is the law.

ghost use Rattle.bounded_runs.specs.Law as law;

/// States that the bound of a program holds from every initial state, under every scheduler and for
/// every number of steps, if its bound goals hold and those of each procedure that it reaches,
/// which must be a program too.
pub fn shown_bounds_hold()
    ensures { law.ShownBoundsHold }
{}

/// States that a program without loops and calls whose body violates the pre in a state has runs
/// from this state that violate its bound.
pub fn broken_goals_break_bounds()
    ensures { law.BrokenGoalsBreakBounds }
{}
