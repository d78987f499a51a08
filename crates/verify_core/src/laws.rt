//! Laws of goals and answers. Each function does nothing: its contract is the law.

ghost use Rattle.verify_core.specs.CheckedProofs.{OtherGoalsAreMissed, ProofsAreAccepted};
ghost use Rattle.verify_core.specs.CheckedProofs.{ProvedGoalsAreAccepted};
ghost use Rattle.verify_core.specs.CheckedProofs.{ProvedRankingsAreAccepted};
ghost use Rattle.verify_core.specs.FreshVariables as new;
ghost use Rattle.verify_core.specs.GoalLaws.{MadeGoalsSayBounds};
ghost use Rattle.verify_core.specs.PromisedAnswers.{AnswersKeepPromises};
ghost use Rattle.verify_core.specs.PromisedAnswers.{CheckedAnswersKeepPromises};
ghost use Rattle.verify_core.specs.SingleGoals.{BoundGoalsAreGoals, CheckedGoalsAreMeantAlone};
ghost use Rattle.verify_core.specs.SingleGoals.{GoalsAreMeantAlone};
ghost use Rattle.verify_core.specs.TossProducts.{TossProductsAreLinear};

use bounded_runs::{broken_goals_break_bounds, shown_bounds_hold};
use farkas_check::{certificates_are_told_apart, certified_goals_hold};
use loop_encodings::{encodings_are_over_their_variables, main_goals_lack_fresh_variables};
use ranking_rule::{ranking_goals_say_rankings, rankings_bound_turns};
use region_split::{decisions_tell, walk_trees_certify};
use vp_generator::{generated_form_means_acts, prenexed_goals_speak_of_choices};

/// A goal without binders holds exactly if the goal of the bound from which it was made holds.
pub fn made_goals_say_bounds()
    ensures { MadeGoalsSayBounds }
{
    generated_form_means_acts();
    prenexed_goals_speak_of_choices();
    encodings_are_over_their_variables();
}

/// In a main goal, the fresh variables of the encoding are counted among the goal's own, and occur
/// in neither form.
pub fn made_goals_lack_fresh_variables()
    ensures counted { new.MadeGoalsCountFreshVariables }
    ensures lacking { new.MadeGoalsLackFreshVariables }
{
    main_goals_lack_fresh_variables();
}

/// The certificates that decisions yield are in the order of their text. They prove each goal of a
/// bound or a ranking that is proved with a tree, and no other one.
pub fn proved_goals_are_accepted()
    ensures accepted { ProofsAreAccepted }
    ensures nothing_missed { ProvedGoalsAreAccepted }
    ensures no_ranking_missed { ProvedRankingsAreAccepted }
    ensures others_missed { OtherGoalsAreMissed }
{
    walk_trees_certify();
    certificates_are_told_apart();
}

/// A goal is never nonlinear at a flip: the cause names a product of the weight's conditions, or
/// one of what follows the flip.
pub fn toss_products_are_linear()
    ensures { TossProductsAreLinear }
{}

/// Answers by decisions of a file's goals, and answers by certificates of them, keep the promises
/// of `Headline`, whatever computed them. Each goal of a bound has its meaning alone: one that is
/// proved holds even if another one of the procedure is open.
pub fn answers_keep_promises()
    ensures decided { AnswersKeepPromises }
    ensures checked { CheckedAnswersKeepPromises }
    ensures goals { BoundGoalsAreGoals }
    ensures alone { GoalsAreMeantAlone }
    ensures checked_alone { CheckedGoalsAreMeantAlone }
{
    made_goals_say_bounds();
    decisions_tell();
    certified_goals_hold();
    shown_bounds_hold();
    broken_goals_break_bounds();
    encodings_are_over_their_variables();
    generated_form_means_acts();
    prenexed_goals_speak_of_choices();
    ranking_goals_say_rankings();
    rankings_bound_turns();
}
