//! Laws of rankings. Each contract is a law; the functions only call the laws that theirs rests on.

ghost use Rattle.ranking_rule.specs.Laws as law;

use heylo_formula::types_bound_values;
use vp_generator::{generated_form_means_acts, prenexed_goals_speak_of_choices};

/// States that a ranking of a loop bounds the loop's expected iterations.
pub fn rankings_bound_turns()
    ensures { law.RankingsBoundTurns }
{
    types_bound_values();
    generated_form_means_acts();
}

/// States that the goal of a ranking holds exactly if the formula is a ranking, and fails only in
/// states in which it is none. The goal is over the procedure's variables and those of binders, and
/// it has few nodes if the procedure's forms are small.
pub fn ranking_goals_say_rankings()
    ensures holds { law.RankingGoalsHold }
    ensures failing { law.RankingGoalsFail }
    ensures goals { law.RankingGoalsAreGoals }
    ensures few { law.RankingGoalsAreFew }
{
    generated_form_means_acts();
    prenexed_goals_speak_of_choices();
}
