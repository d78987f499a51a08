//! The answer on an omega pair, goal by goal.

ghost use Rattle.lower_rules.specs.internal.PairAnswers.{answer_of, both, unless_fails};
ghost use Rattle.std.specs.Prelude.{◌≡◌};

use goal_answers::{Cause, Decision};
use lower_goals::{Omega, Step};

/// Returns the answer for one goal alone.
pub(crate) fn answer_of(step: Step, decision: Decision) -> Omega
    ensures { result ≡ answer_of step decision }
{
    match decision {
        Decision::Proved(_) => Omega::Holds,
        Decision::Falsified(point) => Omega::Fails(step, point),
        Decision::Unknown(cause) => Omega::Unknown(step, cause),
    }
}

/// Returns the answer for some goals and for those after them.
pub(crate) fn both(before: Omega, behind: Omega) -> Omega
    ensures { result ≡ both before behind }
{
    match before {
        Omega::Holds => behind,
        Omega::Shape => Omega::Shape,
        Omega::Fails(step, point) => Omega::Fails(step, point),
        Omega::Unknown(step, cause) => unless_fails(step, cause, behind),
    }
}

/// Returns the answer `Unknown` for a goal, unless a later goal is falsified.
fn unless_fails(step: Step, cause: Cause, behind: Omega) -> Omega
    ensures { result ≡ unless_fails step cause behind }
{
    match behind {
        Omega::Fails(other, point) => Omega::Fails(other, point),
        Omega::Holds => Omega::Unknown(step, cause),
        Omega::Unknown(_, _) => Omega::Unknown(step, cause),
        Omega::Shape => Omega::Unknown(step, cause),
    }
}
