//! Outcomes of goals.

ghost use Rattle.std.specs.Prelude.{◌≡◌};
ghost use Rattle.verify_core.specs.Outcomes.{is_falsified, is_open, told};

use goal_answers::{Cause, Miss, NamedGoal};
use heylo_formula::Val;

/// The outcome of a goal.
#[derive(Drop)]
pub(crate) enum Outcome {
    /// The goal is proved.
    Proved,
    /// The goal fails in this state.
    Falsified(Vec<Val>),
    /// The goal is not decided, for this cause.
    Unknown(Cause),
    /// The certificates do not prove the goal, for this reason.
    Missed(Miss),
}

/// A goal and its outcome.
#[derive(Drop)]
pub(crate) struct GoalOutcome {
    pub(crate) goal: NamedGoal,
    pub(crate) outcome: Outcome,
}

/// Returns the first of the goals that is falsified, otherwise the first that is open.
pub(crate) fn told(row: Vec<GoalOutcome>) -> Option<GoalOutcome>
    ensures { result ≡ told row.items }
{
    let mut falsified = None;
    let mut open = None;
    for one in row {
        if is_falsified(&one.outcome) {
            falsified = falsified.or(Some(one));
        } else if is_open(&one.outcome) {
            open = open.or(Some(one));
        }
    }
    falsified.or(open)
}

fn is_falsified(outcome: &Outcome) -> bool
    ensures { result ≡ is_falsified outcome.now }
{
    match outcome {
        Outcome::Falsified(_) => true,
        _ => false,
    }
}

fn is_open(outcome: &Outcome) -> bool
    ensures { result ≡ is_open outcome.now }
{
    match outcome {
        Outcome::Unknown(_) | Outcome::Missed(_) => true,
        Outcome::Proved | Outcome::Falsified(_) => false,
    }
}
