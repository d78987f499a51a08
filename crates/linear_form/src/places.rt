//! Places: evaluations of a goal that have used some answers of a path.

use crate::parts::{Outcome, Part};
use crate::questions::Ask;
use std::alloc::Global;
use std::marker::Model;
use std::rc::Rc;

/// A place on a path: an evaluation of a goal. Its model, `Standing`, is the tree of the
/// comparisons still to be asked and the number of answers used. A place is one pointer, because
/// walks move it at each comparison.
#[derive(Drop)]
pub struct Place {
    pub(crate) evaluation: Box<Evaluation>,
}

impl Model for Place {
    ghost use Rattle.linear_form.specs.Standings.{Standing};
    ghost use Rattle.linear_form.specs.internal.Codes.{standing_code};

    ghost Value = { Standing };

    ghost coded = { standing_code };

    ghost use Rattle.linear_form.specs.internal.Evaluations.{standing, IsReadyEvaluation};

    ghost view = { λ p. standing p.evaluation.value };

    ghost invariant = { λ p. IsReadyEvaluation p.evaluation.value };
}

#[derive(Clone, Drop)]
pub(crate) struct Evaluation {
    pub focus: Focus,
    /// The waiting parts; the last one waits for the focus.
    pub frames: Vec<Frame>,
    /// The number of answers of the path that are used.
    pub at: usize,
}

/// The part that is evaluated next, or the result that the last frame gets.
#[derive(Clone, Drop)]
pub(crate) enum Focus {
    Part(Rc<Part, Global>),
    Came(Outcome),
}

/// A part that waits for a result.
#[derive(Clone, Drop)]
pub(crate) enum Frame {
    /// The part waits for the result of its first part.
    First(Rc<Part, Global>),
    /// The part waits for the result of its second part; the first part has the given result.
    Second(Rc<Part, Global>, Outcome),
}

/// What is at the end of a path, and the place that the evaluation has reached.
#[derive(Drop)]
pub struct Reached {
    pub ask: Ask,
    pub place: Place,
}
