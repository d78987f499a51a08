//! Answers on omega pairs.

use goal_answers::Cause;
use heylo_formula::Val;

/// A goal of an omega pair.
#[derive(Clone, Copy, Debug, PartialEq, Eq)]
pub enum Step {
    /// The formula is at most 1.
    One,
    /// With no iteration left, the formula is at most 0 while the guard holds, otherwise at most
    /// the pre-expectation of the acts after the loop.
    Base,
    /// With one more iteration, the formula is at most its own pre-expectation over the body while
    /// the guard holds, otherwise at most that of the acts after the loop.
    Turn,
}

/// An answer on two procedures.
#[derive(Drop)]
pub enum Omega {
    /// All goals are proved.
    Holds,
    /// The first goal that is falsified, and a state: a value for each variable of the first
    /// procedure, the number of iterations, and the values of binders.
    Fails(Step, Vec<Val>),
    /// No goal is falsified; this is the first one that is not decided, and its cause.
    Unknown(Step, Cause),
    /// The procedures are no omega pair.
    Shape,
}
