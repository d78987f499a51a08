//! Laws of the generated form and of the prenexed form. Each function does nothing: its contract is
//! the law.

ghost use Rattle.vp_generator.specs.Laws as law;
ghost use Rattle.vp_generator.specs.PrenexLaws as prenex;
ghost use Rattle.vp_generator.specs.PrenexedGoals as goals;
ghost use Rattle.vp_generator.specs.DirectedActs as directed;
ghost use Rattle.vp_generator.specs.Over as over;
ghost use Rattle.vp_generator.specs.Scopes as scopes;

/// States that the value of the generated form is the acts' forward meaning, for the same choices.
/// The form is a formula, its free variables are among those of the acts and of the post, and its
/// binders are named after variables that acts give any value.
pub fn generated_form_means_acts()
    ensures value { law.GeneratedFormMeansActs }
    ensures typed { law.GeneratedFormIsFormula }
    ensures over { over.GeneratedFormIsOver }
    ensures named { scopes.GeneratedFormIsNamed }
{}

/// States that the binders of the generated form have the procedure's direction and are below
/// operators that keep the best value.
pub fn generated_form_is_directed()
    ensures acts { directed.GeneratedFormIsDirected }
    ensures procedures { directed.FormOfProcedureIsDirected }
{}

/// States that the values of the prenexed form, over all values of the new variables, are those of
/// the form over all choices.
pub fn prenexed_form_means_choices()
    ensures given { prenex.ChoicesAreValues }
    ensures found { prenex.ValuesAreChoices }
    ensures typed { prenex.ChoicesAreTyped }
    ensures formula { prenex.PrenexedFormIsFormula }
    ensures plain { prenex.PrenexedFormHasNoBinder }
{}

/// States that a goal with a prenexed form holds exactly if the inequality holds for all choices.
/// In a state in which the goal fails, the inequality fails for some choices.
pub fn prenexed_goals_speak_of_choices()
    ensures holds { goals.PrenexedGoalsSpeakOfChoices }
    ensures goals { goals.PrenexedGoalsAreGoals }
    ensures failing { goals.PrenexedGoalsFailByChoices }
{}
