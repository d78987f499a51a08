//! The outcome of a goal by certificates.

ghost use Rattle.cert_text.specs.Certificates.{IsGrowingAfter, certificates_of};
ghost use Rattle.goal_answers.specs.Trees.{tree_of};
ghost use Rattle.std.specs.Prelude.{IfOk, None};
ghost use Rattle.verify_core.specs.CertifiedGoals.{IsMissOf};
ghost use Rattle.verify_core.specs.internal.CertificateAnswers.{IsFound};
ghost use Rattle.verify_core.specs.internal.SettledGoals.{IsChecked};

use crate::certificate_search::tree_for;
use crate::outcomes::Outcome;
use farkas_check::check;
use goal_answers::{Checked, GoalCert, Miss, NamedGoal, Tree};
use heylo_formula::Made;
use std::alloc::{AllocError, Global};

/// Returns the outcome of a goal by the certificates.
pub(crate) fn by_certificates(
    alloc: Global,
    certs: &[GoalCert],
    goal: &NamedGoal,
) -> Result<Outcome, AllocError>
    requires order { IsGrowingAfter None (certificates_of certs.now) }
    ensures { IfOk result (λ outcome. IsChecked certs.now goal.now outcome) }
{
    match miss_of(alloc, certs, goal)? {
        None => Ok(Outcome::Proved),
        Some(miss) => Ok(Outcome::Missed(miss)),
    }
}

/// Returns why the certificates do not prove the goal, or `None` if they do.
fn miss_of(alloc: Global, certs: &[GoalCert], goal: &NamedGoal) -> Result<Option<Miss>, AllocError>
    requires order { IsGrowingAfter None (certificates_of certs.now) }
    ensures { IfOk result (λ miss. IsMissOf certs.now goal.now miss) }
{
    match tree_for(certs, goal.proc, goal.id) {
        Some(tree) => found(alloc, &goal.made, tree),
        None => Ok(Some(Miss::Absent)),
    }
}

/// Returns where `tree` is refused first as a certificate of `made`, or `None` if it is one. If
/// there is no goal, it is refused at the root.
fn found(alloc: Global, made: &Made, tree: &Tree) -> Result<Option<Miss>, AllocError>
    ensures { IfOk result (λ miss. IsFound made.now (tree_of tree.now) miss) }
{
    let Made::Goal(goal) = made else {
        return Ok(Some(Miss::Place(Vec::new(alloc))));
    };
    Ok(match check(alloc, goal, tree)? {
        Checked::Yes => None,
        Checked::No(way) => Some(Miss::Place(way)),
    })
}
