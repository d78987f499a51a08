//! Laws of exact values, and of the numbers in use. Each function does nothing: its contract is the
//! law.

ghost use Rattle.quant_algebra.specs.Laws as law;
ghost use Rattle.quant_algebra.specs.NumbersInUse as number;

/// An exact value is the value that the formula means in the state, and an exact truth value is
/// that of the condition.
pub fn exact_values_are_meant()
    ensures value { law.ExactValuesAreMeant }
    ensures truth { law.ExactTruthIsMeant }
{}

/// Facts that the exported rule sets of the numbers prove without further steps. If the rule sets
/// lose one, a crate above the numbers fails here.
pub fn numbers_in_use()
    ensures three_terms { number.ThreeTermsMonotone }
    ensures flip { number.FlipDistributes }
    ensures two_rows { number.TwoRowsContradict }
    ensures opposite_rows { number.OppositeRowsContradict }
{}
