//! Laws of fractions and values. Each function does nothing: its contract is the law. The
//! definitions are the ones that the crates above reason about.
ghost use Rattle.heyvl_num.specs.FractionLaws as fraction;
ghost use Rattle.heyvl_num.specs.ValueLaws as value;
ghost use Rattle.heyvl_num.specs.OperatorLaws as operator;

/// States equality, arithmetic and order of fractions by their cross products.
pub fn fractions_by_cross_products()
    ensures equal { fraction.FractionsEqual }
    ensures added { fraction.FractionsAdded }
    ensures subtracted { fraction.FractionsSubtracted }
    ensures multiplied { fraction.FractionsMultiplied }
    ensures negated { fraction.FractionsNegated }
    ensures ordered { fraction.FractionsOrdered }
    ensures compared { fraction.FractionsCompared }
    ensures parts { fraction.FractionsHaveParts }
{}

/// States the laws of sums, products and negatives of fractions.
pub fn ring_of_fractions()
    ensures sum_associative { fraction.AdditionAssociates }
    ensures sum_commutative { fraction.AdditionCommutes }
    ensures zero { fraction.ZeroAddsNothing }
    ensures negation { fraction.NegationCancels }
    ensures product_associative { fraction.MultiplicationAssociates }
    ensures product_commutative { fraction.MultiplicationCommutes }
    ensures one { fraction.OneChangesNothing }
    ensures distributive { fraction.MultiplicationDistributes }
    ensures twice_negated { fraction.NegationUndoesItself }
    ensures negated_factor { fraction.NegationOfAFactor }
    ensures negated_sum { fraction.NegationOfASum }
    ensures difference { fraction.DifferenceUndone }
    ensures halves { fraction.HalvesAddUp }
{}

/// States the laws of the order of fractions.
pub fn order_of_fractions()
    ensures reflexive { fraction.OrderReflexive }
    ensures transitive { fraction.OrderTransitive }
    ensures antisymmetric { fraction.OrderAntisymmetric }
    ensures total { fraction.OrderTotal }
    ensures sums { fraction.SumsMonotone }
    ensures products { fraction.ProductsMonotone }
    ensures whole_factors { fraction.WholeFactorsKeepTheOrder }
    ensures differences { fraction.DifferenceTellsTheOrder }
    ensures negations { fraction.NegationTurnsTheOrder }
    ensures nonpositive_factors { fraction.NonpositiveFactors }
    ensures dense { fraction.MiddlesLieBetween }
{}

/// States the laws of sums and products of values, in which 0 times infinity is 0.
pub fn semiring_of_values()
    ensures sum_associative { value.AdditionAssociates }
    ensures sum_commutative { value.AdditionCommutes }
    ensures zero { value.ZeroAddsNothing }
    ensures product_associative { value.MultiplicationAssociates }
    ensures product_commutative { value.MultiplicationCommutes }
    ensures one { value.OneChangesNothing }
    ensures zero_factor { value.ZeroTakesAll }
    ensures infinity { value.InfinityAbsorbs }
    ensures weights { value.WeightsDistribute }
    ensures distributive { value.MultiplicationDistributes }
    ensures halves { value.HalvesAddUp }
{}

/// States the laws of the order of values.
pub fn order_of_values()
    ensures reflexive { value.OrderReflexive }
    ensures transitive { value.OrderTransitive }
    ensures antisymmetric { value.OrderAntisymmetric }
    ensures total { value.OrderTotal }
    ensures infinity { value.InfinityGreatest }
    ensures sums { value.SumsMonotone }
    ensures weights { value.WeightsMonotone }
    ensures products { value.ProductsMonotone }
    ensures finite_terms { value.FiniteTermsCancel }
    ensures compared { value.ValuesCompared }
{}

/// States what the minimum, the maximum, the implications and the truncated difference are: the
/// largest or the least value with a property.
pub fn operators_on_values()
    ensures minimum { value.MinimumGreatest }
    ensures maximum { value.MaximumLeast }
    ensures implication { value.ImplicationAdjoint }
    ensures coimplication { value.CoimplicationAdjoint }
    ensures difference { value.DifferenceAdjoint }
{}

/// States the laws of weighted sums.
pub fn weighted_sums()
    ensures appended { value.SumsOfAppendedLists }
    ensures factors { value.FactorsMoveOut }
    ensures joined { value.SumsOfJoinedLists }
    ensures monotone { value.WeightedSumsMonotone }
    ensures bounded { value.WeightedSumsBounded }
{}

/// States that integers are closed under the operators on fractions and values.
pub fn whole_numbers()
    ensures sums { operator.WholeSums }
    ensures differences { operator.WholeDifferences }
    ensures products { operator.WholeProducts }
    ensures negatives { operator.WholeNegatives }
    ensures constants { operator.ZeroAndOneAreWhole }
    ensures values { operator.WholeValues }
{}

/// States which operators on values are monotone, and the sign of the coimplication.
pub fn growth_of_operators()
    ensures minimum { operator.MinimumGrows }
    ensures maximum { operator.MaximumGrows }
    ensures implication { operator.ImplicationGrows }
    ensures coimplication { operator.CoimplicationGrows }
    ensures nonnegative { operator.CoimplicationNonnegative }
{}

/// States how weights add up, and the sign of weighted sums.
pub fn weights_of_outcomes()
    ensures nothing { operator.WeightOfNothing }
    ensures more { operator.WeightsAddUp }
    ensures nonnegative { operator.WeightedSumsNonnegative }
{}
