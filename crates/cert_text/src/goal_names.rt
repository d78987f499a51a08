//! Names of the goals of a file, and their order.

ghost use Rattle.std.specs.Prelude.{◌≡◌};
ghost use Rattle.cert_text.specs.Certificates.{may_follow, precedes};

use heylo_formula::GoalId;

/// A goal of a file: the number of its procedure, from 0, and the goal's name in the procedure.
#[derive(Clone, Copy)]
pub struct GoalName {
    pub proc: u32,
    pub id: GoalId,
}

/// Returns whether the goal `first` precedes the goal `second`.
fn precedes(first: GoalName, second: GoalName) -> bool
    ensures { result ≡ precedes first second }
{
    first.proc < second.proc || (first.proc == second.proc && first.id.stands_before(second.id))
}

/// Returns whether the goal `name` may follow the goal `latest`. Any goal may be the first.
pub fn may_follow(latest: Option<GoalName>, name: GoalName) -> bool
    ensures { result ≡ may_follow latest name }
{
    match latest {
        None => true,
        Some(latest) => precedes(latest, name),
    }
}
