//! Goals, which are verification conditions: inequalities between two forms without binders.

ghost use Rattle.heylo_formula.specs.GoalOrder.{kind_rank, loop_of, stands_before};
ghost use Rattle.std.specs.Prelude.{◌≡◌};

use crate::forms::Form;
use crate::types::Ty;
use heyvl_places::Name;

/// An inequality that is to hold for all values of the variables. An upper goal asks that the
/// stated bound is at least the computed form, a lower goal that it is at most the computed form.
/// Neither form has a binder.
#[derive(Drop)]
pub struct Goal {
    pub upper: bool,
    pub stated: Form,
    pub found: Form,
    /// The type of each variable.
    pub vars: Vec<Ty>,
    /// The name of each variable.
    pub names: Vec<Name>,
    /// The number of variables that belong to the procedure or to its encoding. They come first;
    /// the others were binders.
    pub own: u32,
}

/// The name of a goal of a procedure. Loops are numbered from 1.
#[derive(Clone, Copy, Debug, PartialEq, Eq, Hash)]
pub enum GoalId {
    Main,
    Pre,
    Post,
    Invariant(u32),
    Ranking(u32),
}

impl GoalId {
    /// Returns the rank of the kind of goal in the order of a procedure's goals.
    fn kind_rank(self) -> u8
        ensures { result ≡ kind_rank self }
    {
        match self {
            GoalId::Main => 0,
            GoalId::Pre => 1,
            GoalId::Post => 2,
            GoalId::Invariant(_) => 3,
            GoalId::Ranking(_) => 4,
        }
    }

    /// Returns the number of the goal's loop, or 0 if it has none.
    pub fn loop_number(self) -> u32
        ensures { result ≡ loop_of self }
    {
        match self {
            GoalId::Main | GoalId::Pre | GoalId::Post => 0,
            GoalId::Invariant(number) => number,
            GoalId::Ranking(number) => number,
        }
    }

    /// Returns whether the goal precedes `other` in the order of a procedure's goals.
    pub fn stands_before(self, other: GoalId) -> bool
        ensures { result ≡ stands_before self other }
    {
        self.kind_rank() < other.kind_rank()
            || (self.kind_rank() == other.kind_rank() && self.loop_number() < other.loop_number())
    }
}

/// The result of making a goal: the goal, or the limit that its form exceeds, of depth or of nodes.
#[derive(Drop)]
pub enum Made {
    Goal(Goal),
    Depth,
    Nodes,
}
