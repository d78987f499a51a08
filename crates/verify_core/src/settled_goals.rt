//! The outcomes of a list of goals, by decisions or by certificates.

ghost use Rattle.heyvl_acts.specs.Rules.{Each};
ghost use Rattle.std.specs.Prelude.{IfOk};
ghost use Rattle.verify_core.specs.internal.SettledGoals.{AreSettled, CanSettle, IsSettled};

use crate::certificate_verdicts::by_certificates;
use crate::decisions::by_decision;
use crate::outcomes::{GoalOutcome, Outcome};
use goal_answers::{GoalCert, NamedGoal};
use std::alloc::{AllocError, Global};

/// How goals are settled.
#[derive(Clone, Copy)]
pub(crate) enum Way<'a> {
    /// By decisions.
    Decide,
    /// By these certificates, which are in the order of their text.
    Check(&'a [GoalCert]),
}

/// Returns the goals with their outcomes. Appends to `certs` the certificates of those that are
/// proved by decisions.
pub(crate) fn settle_all(
    alloc: Global,
    way: Way<'_>,
    goals: Vec<NamedGoal>,
    certs: &mut Vec<GoalCert>,
) -> Result<Vec<GoalOutcome>, AllocError>
    requires { Each (CanSettle way) goals.items }
    ensures { IfOk result (λ all.
        AreSettled way.entry goals.items all.items certs.old.items certs.new.items) }
{
    let mut all = Vec::new(alloc);
    for goal in goals {
        let outcome = settle(alloc, way, &goal, certs)?;
        all.push(GoalOutcome { goal, outcome })?;
    }
    Ok(all)
}

/// Returns the outcome of a goal. Appends its certificate if it is proved by a decision.
fn settle(
    alloc: Global,
    way: Way<'_>,
    goal: &NamedGoal,
    certs: &mut Vec<GoalCert>,
) -> Result<Outcome, AllocError>
    requires { CanSettle way goal.now }
    ensures { IfOk result (λ outcome.
        IsSettled way.entry goal.now outcome certs.old.items certs.new.items) }
{
    match way {
        Way::Decide => by_decision(alloc, goal, certs),
        Way::Check(given) => by_certificates(alloc, given, goal),
    }
}
