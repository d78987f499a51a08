//! Laws of lower bounds. Each function does nothing: its contract is the law.

ghost use Rattle.lower_rules.specs.Omega.{OmegaBoundsRuns};
ghost use Rattle.lower_rules.specs.Remainder.{RemainderBoundsRuns};

/// States that an omega invariant is a lower bound on the expected post of the runs that terminate
/// within few iterations.
pub fn omega_bounds_runs()
    ensures { OmegaBoundsRuns }
{}

/// States the lower bound with a remainder, for a proc with `@wlp` whose bound holds and whose loop
/// is ranked.
pub fn remainder_bounds_runs()
    ensures { RemainderBoundsRuns }
{}
