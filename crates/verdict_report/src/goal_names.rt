//! The names of the variables of a goal.

ghost use Rattle.std.specs.Prelude.{◌≡◌};
ghost use Rattle.verdict_report.specs.GoalNames.{is_same, names_of, names_of_made};
ghost use Rattle.verdict_report.specs.Settings.{named_by};

use goal_answers::NamedGoal;
use heylo_formula::{GoalId, Made};
use heyvl_places::Name;

/// Returns whether `first` and `second` are the same goal of a procedure.
fn is_same(first: GoalId, second: GoalId) -> bool
    ensures { result ≡ is_same first second }
{
    match (first, second) {
        (GoalId::Main, GoalId::Main) => true,
        (GoalId::Pre, GoalId::Pre) => true,
        (GoalId::Post, GoalId::Post) => true,
        (GoalId::Invariant(n), GoalId::Invariant(m)) => n == m,
        (GoalId::Ranking(n), GoalId::Ranking(m)) => n == m,
        _ => false,
    }
}

/// Returns the names of the variables of a goal, by number, and the number of those that were no
/// binders; these come first. If there is no goal, there are no names.
pub fn names_of_made(made: &Made) -> (&[Name], u32)
    ensures { named_by result.0.now result.1 ≡ names_of_made made.now }
{
    match made {
        Made::Goal(goal) => (&goal.names, goal.own),
        Made::Depth | Made::Nodes => (&[], 0),
    }
}

/// Returns the names of the variables of the goal `id` of the procedure `proc`, if it is in `made`,
/// and the number of those that were no binders.
pub(crate) fn names_of(made: &[NamedGoal], proc: u32, id: GoalId) -> (&[Name], u32)
    ensures { named_by result.0.now result.1 ≡ names_of proc id made.now }
{
    let mut rest = made;
    'made: while let Some((goal, more)) = rest.split_first() {
        if goal.proc == proc && is_same(goal.id, id) {
            return names_of_made(&goal.made);
        }
        rest = more;
    }
    (&[], 0)
}
