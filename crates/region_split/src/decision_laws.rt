//! The laws of decisions. Each function does nothing: its contract is the law.

ghost use Rattle.region_split.specs.DecisionLaws as law;

/// States what a decision of a typed goal means: a proved goal holds in each state, a falsified one
/// fails in the state that is shown.
pub fn decisions_tell()
    ensures { law.DecisionsTell }
{}

/// States that the tree of the walk is a certificate, and unique except for its multipliers, so
/// that its depth is unique.
pub fn walk_trees_certify()
    ensures certify { law.TreesCertify }
    ensures alike { law.TreesAreAlike }
    ensures depth { law.DepthIsUnique }
{}

/// States that the cells of the walk have one order, and that those before a front are unique.
pub fn walks_are_unique()
    ensures cells { law.CellsAreUnique }
    ensures before { law.CellsBeforeAreUnique }
{}

/// States that the bound at which a piece is split is below 2^62 in absolute value, as the ends of
/// a greedy choice that breaks are.
pub fn splits_are_narrow()
    ensures { law.SplitsAreNarrow }
{}

/// States that a goal has one decision, except for the multipliers of its tree, and for limits of
/// rows and of numbers.
pub fn decisions_are_unique()
    ensures { law.DecisionsAreUnique }
{}
