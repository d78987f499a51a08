//! Answers on remainder pairs.

use goal_answers::Cause;
use heylo_formula::Val;
use heyvl_num::Frac;

/// An answer on two procedures as a remainder pair.
#[derive(Drop)]
pub enum Remainder {
    /// The runs that terminate within m iterations have an expected post of at least the pre, less
    /// the bound on the inputs over this step times m.
    Holds(Frac),
    /// The first procedure is not verified.
    NotVerified,
    /// The ranking of its loop is not proved.
    NotRanked,
    /// The bound on the inputs is less, in this state, than the pre-expectation of the ranking over
    /// the acts before the loop. The state has a value for each of the procedure's variables, and
    /// then for each binder.
    Fails(Vec<Val>),
    /// The goal is not decided, for this cause.
    Unknown(Cause),
    /// The procedures are no remainder pair.
    Shape,
}
