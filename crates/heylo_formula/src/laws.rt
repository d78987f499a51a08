//! Laws of forms. Each function does nothing: its contract is the law. The definitions are the ones
//! that the crates above reason about.

ghost use Rattle.heylo_formula.specs.Laws as law;
ghost use Rattle.heylo_formula.specs.ExtremaLaws as typed;
ghost use Rattle.heylo_formula.specs.ShiftLaws as shift;
ghost use Rattle.heylo_formula.specs.TermLaws as term;
ghost use Rattle.heylo_formula.specs.AgreementLaws as agreement;
ghost use Rattle.heylo_formula.specs.StateLaws as state;
ghost use Rattle.heylo_formula.specs.SubstitutionLaws as put;
ghost use Rattle.heylo_formula.specs.OperatorLaws as operator;
ghost use Rattle.heylo_formula.specs.GoalLaws as goal;
ghost use Rattle.heylo_formula.specs.MeaningLaws as meaning;

/// States that a value depends only on the free variables, and on choices only if there is a
/// binder.
pub fn what_values_depend_on()
    ensures variables { law.ValuesIgnoreOthers }
    ensures variables_of_truth { law.TruthIgnoresOthers }
    ensures choices { law.ValuesIgnoreChoices }
    ensures choices_of_truth { law.TruthIgnoresChoices }
{}

/// States that a renamed form has the value of the form in the renamed state.
pub fn renaming_renames_the_state()
    ensures value { law.RenamingKeepsValues }
    ensures truth { law.RenamingKeepsTruth }
{}

/// States that substitution is a change of the state, for all choices of the binders, and that a
/// binder that would capture takes the least unused variable.
pub fn substitution_changes_the_state()
    ensures value { law.SubstitutionChangesState }
    ensures truth { law.SubstitutionChangesStateOfTruth }
    ensures fresh { law.FreshIsLeast }
{}

/// States which values are finite or nonnegative by their types.
pub fn types_bound_values()
    ensures finite { typed.FiniteTypesAreFinite }
    ensures nonnegative { typed.FormulasAreNonnegative }
    ensures plain { typed.FiniteTermsArePlain }
{}

/// States that substituting a term that fits its variable keeps forms and conditions well typed.
pub fn substitution_keeps_types()
    ensures types { typed.SubstitutionKeepsTypes }
    ensures formulas { typed.SubstitutionKeepsFormulas }
    ensures conditions { typed.SubstitutionKeepsConditions }
{}

/// States that the meaning of a form with binders is bounded by its value under each choice.
pub fn bounds_hold_by_choices()
    ensures one { typed.FormsMeanOneValue }
    ensures binder_free { typed.BinderFreeFormsMeanTheirValues }
    ensures bounds { typed.BoundsHoldByChoices }
    ensures unbound { typed.BinderFreeFormsAreDirected }
{}

/// States that substituting a plain term keeps binders, and the operators above them.
pub fn substitution_keeps_binders()
    ensures binders { typed.SubstitutionKeepsBinders }
    ensures directions { typed.SubstitutionKeepsDirections }
{}

/// States that a shifted form has the value and the type of the form without the first variables,
/// that its binders, nodes and depth are those of the form, and which variables are free in it.
pub fn shifting_moves_the_state()
    ensures value { shift.ShiftingMovesTheState }
    ensures truth { shift.ShiftingMovesTheStateOfTruth }
    ensures types { shift.ShiftingMovesTypes }
    ensures conditions { shift.ShiftingMovesTypesOfConditions }
    ensures binders { shift.ShiftingKeepsBinders }
    ensures directions { shift.ShiftingKeepsDirections }
    ensures sizes { shift.ShiftingKeepsSizes }
    ensures variables { shift.ShiftingMovesFreeVariables }
    ensures none_below { shift.NoneBelowTheShift }
    ensures over { shift.ShiftedIsOver }
    ensures extent { shift.ExtentIsLeast }
    ensures extent_of_free { shift.ExtentOfFreeVariables }
    ensures extent_of_conditions { shift.ExtentOfConditions }
{}

/// States that forms of Int and UInt have integer values, and that a term that fits a type has no
/// binder and a value of the type.
pub fn terms_have_values_of_their_types()
    ensures whole { term.WholeTypesAreWhole }
    ensures typed { term.TermsHaveValuesOfTheirTypes }
    ensures binders { term.FiniteTypesHaveNoBinder }
    ensures binders_of_conditions { term.TypedConditionsHaveNoBinder }
    ensures plain { term.TermsThatFitArePlain }
    ensures fit { term.FitIsTyped }
    ensures fit_keeps { term.FitKeeps }
    ensures joins { term.JoinsOfUnsigned }
{}

/// States that the value and the type of a form depend only on its free variables.
pub fn what_free_variables_decide()
    ensures value { agreement.ValuesDependOnFree }
    ensures truth { agreement.TruthDependsOnFree }
    ensures types { agreement.TypesDependOnFree }
    ensures conditions { agreement.ConditionsDependOnFree }
{}

/// States the relation between typed lists of values, their environments, and changes of variables.
pub fn lists_are_environments()
    ensures length { state.TypedListsHaveAllValues }
    ensures typed { state.TypedListsAreTypedEnvironments }
    ensures changed { state.ChangedListsAreChangedEnvironments }
    ensures lists_stay_typed { state.ChangesKeepTypedLists }
    ensures stays_typed { state.ChangesKeepTypes }
    ensures appended { state.TypedListsAppend }
    ensures first { state.FirstOfTwoLists }
    ensures second { state.SecondOfTwoLists }
    ensures first_types { state.TypesOfTheFirst }
    ensures second_types { state.TypesOfTheSecond }
    ensures listed { state.FirstValuesAreValues }
    ensures listed_typed { state.FirstValuesAreTyped }
    ensures commute { state.ChangesCommute }
    ensures later { state.LaterChangesCount }
{}

/// States what a renaming keeps beside the value.
pub fn what_renaming_keeps()
    ensures types { put.RenamingKeepsTypes }
    ensures conditions { put.RenamingKeepsConditions }
    ensures sizes { put.RenamingKeepsSizes }
    ensures binders { put.RenamingKeepsBinders }
    ensures directions { put.RenamingKeepsDirections }
    ensures variables { put.FreeInRenamed }
{}

/// States which variables are free in the result of a substitution, and how large the result is.
pub fn what_substitution_gives()
    ensures variables { put.FreeInSubstitution }
    ensures over { put.SubstitutionIsOver }
    ensures others { put.SubstitutionOfOthers }
    ensures others_in_conditions { put.SubstitutionOfOthersInConditions }
    ensures grows { put.SubstitutionGrows }
    ensures counts { put.SubstitutionCounts }
    ensures counts_in_conditions { put.SubstitutionCountsInConditions }
    ensures names { put.SubstitutionKeepsBinderNames }
    ensures no_names { put.NoBinderNoName }
{}

/// States that validate and covalidate are monotone and nonnegative, and that plain differences
/// keep integers.
pub fn growth_of_validates()
    ensures validate { operator.ValidateGrows }
    ensures covalidate { operator.CovalidateGrows }
    ensures nonnegative { operator.ValidatesNonnegative }
    ensures whole { operator.WholeDifferences }
{}

/// States that a goal depends only on its own variables, and not on choices.
pub fn what_goals_speak_of()
    ensures variables { goal.GoalsReadTheirVariables }
    ensures environments { goal.GoalsHoldInTypedEnvironments }
    ensures choices { goal.GoalsIgnoreChoices }
{}

/// States that a form whose binders are over Bool has a meaning with suprema and infima: the best
/// of finitely many values. For other binders no meaning is claimed, since no fraction may be the
/// best.
pub fn finite_choices_have_meanings()
    ensures meanings { meaning.FiniteChoicesHaveMeanings }
{}
