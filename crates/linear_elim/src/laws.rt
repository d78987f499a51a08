//! The law of the elimination. The function does nothing: its contract is the law.

ghost use Rattle.linear_elim.specs.Laws as law;

/// States that the elimination decides whether rows are solvable, for every order of their
/// variables.
pub fn elimination_decides()
    ensures refuted { law.RefutedNeverSolvable }
    ensures standing { law.StandingSolvable }
    ensures multipliers { law.RefutedByMultipliers }
{}
