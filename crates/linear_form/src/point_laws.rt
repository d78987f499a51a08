//! The laws of the points of a path. Each function does nothing: its contract is the law.

ghost use Rattle.linear_form.specs.PointLaws as law;

/// States that a state that has the truths of a path and satisfies its rows agrees with the path;
/// if the denied goal is among the rows, the goal fails in the state.
pub fn falsifying_points()
    ensures agree { law.PointsAgree }
    ensures falsify { law.PointsFalsify }
{}

/// States that a path of a typed goal decides only Booleans, and only variables of the goal.
pub fn truths_are_booleans()
    ensures booleans { law.TruthsAreBooleans }
    ensures variables { law.TruthsHaveVariables }
{}

/// States that an unsigned variable that occurs in the rows of a path is not negative in a solution
/// of the rows.
pub fn unsigned_are_nonnegative()
    ensures { law.UnsignedAreNonnegative }
{}
