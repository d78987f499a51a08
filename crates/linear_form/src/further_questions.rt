//! Evaluations that surely ask a further comparison.

ghost use Rattle.std.specs.Prelude.{◌≡◌, ◌++◌, ◌∷◌, [], List, length, IsTrue};
ghost use Rattle.std.specs.List.{list_any};
ghost use Rattle.heylo_formula.specs.Goals.{Goal as PlainGoal};
ghost use Rattle.linear_form.specs.LastingPaths.{IsNoEnd};
ghost use Rattle.linear_form.specs.Paths.{IsPath};
ghost use Rattle.linear_form.specs.Places.{IsOn};
ghost use Rattle.linear_form.specs.Query.{Taken as PlainTaken};
ghost use Rattle.linear_form.specs.internal.Evaluations.{frame_asks};

use crate::parts::Work;
use crate::paths::is_comparison;
use crate::places::{Evaluation, Focus, Frame, Place};

/// Returns true only if the evaluation has used `count` answers and surely asks two more
/// comparisons of numbers, so that the path of these answers is not at an end after one more.
pub fn asks_on(place: &Place, count: usize) -> bool
    ensures { (g : PlainGoal) (ps : List PlainTaken) (t : PlainTaken) → IsTrue result
        → length ps ≡ count → IsOn g ps place.now → IsPath g (ps ++ (t ∷ []))
        → IsNoEnd g (ps ++ (t ∷ [])) }
{
    let evaluation: &Evaluation = &place.evaluation;
    let Focus::Part(part) = &evaluation.focus else {
        return false;
    };
    let Work::Asks(atom, yes, no) = &part.work else {
        return false;
    };
    evaluation.at == count
        && is_comparison(atom)
        && (frames_ask(&evaluation.frames) || yes.asks && no.asks)
}

/// Returns whether a waiting part surely asks a comparison of numbers after it gets the result that
/// it waits for.
fn frames_ask(frames: &[Frame]) -> bool
    ensures { result ≡ list_any frame_asks frames.now }
{
    frames.iter().any(|frame| frame_asks(frame))
}

fn frame_asks(frame: &Frame) -> bool
    ensures { result ≡ frame_asks frame.now }
{
    match frame {
        Frame::First(part) => match &part.work {
            Work::Two(_, _, second) => second.asks,
            Work::Choice(_, yes, no) => yes.asks && no.asks,
            _ => false,
        },
        Frame::Second(_, _) => false,
    }
}
