//! The search for the certificate of a goal, in a list in the order of the text.

ghost use Rattle.cert_text.specs.Certificates.{IsGrowingAfter, certificates_of, precedes};
ghost use Rattle.goal_answers.specs.Trees.{Tree as TreeValue, tree_of};
ghost use Rattle.std.specs.Prelude.{IfSome, None, false, true, ◌≡◌};
ghost use Rattle.verify_core.specs.CertifiedGoals.{HasTree};
ghost use Rattle.verify_core.specs.internal.CertificateAnswers.{IsPlaceOf, name_of};

use goal_answers::{GoalCert, Tree};
use heylo_formula::GoalId;

/// Returns whether the goal of `cert` precedes the goal `id` of the procedure `proc`.
fn precedes(cert: &GoalCert, proc: u32, id: GoalId) -> bool
    ensures { result ≡ precedes (name_of cert.now) (record { proc = proc; id = id }) }
{
    cert.proc < proc || (cert.proc == proc && cert.id.stands_before(id))
}

/// Returns whether `cert` is for the goal `id` of the procedure `proc`.
fn is_of(cert: &GoalCert, proc: u32, id: GoalId) -> bool
    ensures yes { result ≡ true → (cert.now.proc ≡ proc) × (cert.now.id ≡ id) }
    ensures no { result ≡ false → cert.now.proc ≡ proc → cert.now.id ≡ id → ⊥ }
{
    cert.proc == proc && cert.id == id
}

/// Returns the place of the first certificate whose goal does not precede the goal `id` of the
/// procedure `proc`, or the length of the list.
fn place_of(certs: &[GoalCert], proc: u32, id: GoalId) -> usize
    requires order { IsGrowingAfter None (certificates_of certs.now) }
    ensures { IsPlaceOf certs.now (record { proc = proc; id = id }) result }
{
    certs.partition_point(|cert| precedes(cert, proc, id))
}

/// Returns the tree for the goal `id` of the procedure `proc`, if there is one.
pub(crate) fn tree_for(certs: &[GoalCert], proc: u32, id: GoalId) -> Option<&Tree>
    requires order { IsGrowingAfter None (certificates_of certs.now) }
    ensures found { IfSome result (λ tree. HasTree certs.now proc id (tree_of tree.now)) }
    ensures none { result ≡ None → (t : TreeValue) → HasTree certs.now proc id t → ⊥ }
{
    let cert = certs.get(place_of(certs, proc, id))?;
    if is_of(cert, proc, id) {
        Some(&cert.tree)
    } else {
        None
    }
}
