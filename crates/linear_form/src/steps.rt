//! The steps of an evaluation.

ghost use Rattle.linear_form.specs.PlainPaths.{path_of};
ghost use Rattle.linear_form.specs.internal.Evaluations.{IsReadyEvaluation, left_at, weight};
ghost use Rattle.linear_form.specs.internal.Steps.{Steps};

use crate::cursor::{Stop, answer};
use crate::operations::operated;
use crate::parts::{Outcome, Work};
use crate::paths::Taken;
use crate::places::{Evaluation, Focus, Frame};
use crate::questions::Ask;
use linear_values::lin::copy_value;
use std::alloc::Global;
use std::rc::Rc;

/// Makes a step. Returns the values of both forms at the end; if it stops, `place` stays as it is.
pub(crate) fn advance(
    alloc: Global,
    place: &mut Evaluation,
    path: &[Taken],
) -> Result<Option<Box<Ask>>, Stop>
    requires { IsReadyEvaluation place.old }
    ensures { Steps (path_of path.now) (left_at place.old) place.old.at
        (weight place.old) place.new result }
{
    match &place.focus {
        Focus::Part(part) => match &part.work {
            Work::Known(outcome) => {
                place.focus = Focus::Came(outcome.clone()?);
                Ok(None)
            }
            Work::Large => Err(Stop::Bits),
            Work::Asks(atom, yes, no) => {
                let tested = answer(atom, path, place.at)?;
                place.focus = Focus::Part(Rc::clone(if tested.holds { yes } else { no })?);
                place.at = tested.next;
                Ok(None)
            }
            Work::Two(_, first, _) | Work::Choice(first, _, _) => {
                let next = Rc::clone(first)?;
                place.frames.push(Frame::First(Rc::clone(part)?))?;
                place.focus = Focus::Part(next);
                Ok(None)
            }
        },
        Focus::Came(outcome) => match place.frames.last() {
            None => match outcome {
                Outcome::Ends(x, y) => {
                    let ask = Ask::End(copy_value(alloc, x)?, copy_value(alloc, y)?);
                    Ok(Some(Box::new(alloc, ask)?))
                }
                _ => Err(Stop::Bits),
            },
            Some(Frame::First(part)) => match &part.work {
                Work::Two(_, _, second) => {
                    let next = Rc::clone(second)?;
                    let waits = Frame::Second(Rc::clone(part)?, outcome.clone()?);
                    place.frames.pop();
                    place.frames.push(waits)?;
                    place.focus = Focus::Part(next);
                    Ok(None)
                }
                Work::Choice(_, yes, no) => {
                    let Outcome::Truth(holds) = outcome else {
                        return Err(Stop::Bits);
                    };
                    place.focus = Focus::Part(Rc::clone(if *holds { yes } else { no })?);
                    place.frames.pop();
                    Ok(None)
                }
                _ => Err(Stop::Bits),
            },
            Some(Frame::Second(part, first)) => {
                let Work::Two(operation, _, _) = &part.work else {
                    return Err(Stop::Bits);
                };
                let came = operated(alloc, operation, first, outcome, path, place.at)?;
                place.frames.pop();
                place.focus = Focus::Came(came.outcome);
                place.at = came.next;
                Ok(None)
            }
        },
    }
}
