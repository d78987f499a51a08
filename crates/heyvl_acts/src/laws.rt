//! Laws of acts. Each function does nothing: its contract is the law.

ghost use Rattle.heyvl_acts.specs.Matching as matching;

/// States what inductions over runs use of the forward meaning, whatever loops and calls mean: the
/// meaning of two lists of acts, one after the other, is a composition; and for each kind of act,
/// given choices for its post, some choices for the whole yield the same value.
pub fn forward_meaning_matches_runs()
    ensures join { matching.ActsJoin }
    ensures draws { matching.DrawsMatch }
    ensures tosses { matching.TossesMatch }
    ensures rewards { matching.RewardsMatch }
    ensures branches { matching.BranchesMatch }
    ensures anys { matching.AnysMatch }
    ensures picks { matching.PicksMatch }
    ensures checks { matching.ChecksMatch }
{}
