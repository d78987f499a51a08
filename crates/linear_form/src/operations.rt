//! Operations on the values of two parts.

ghost use Rattle.std.specs.Prelude.{Bool, List, ℕ};
ghost use Rattle.linear_form.specs.Query.{Query, Taken as PlainTaken};
ghost use Rattle.linear_form.specs.internal.EvaluationResults.{Gives, GivesTruth};
ghost use Rattle.linear_form.specs.internal.Outcomes.{IsKeptResult, told, valued};
ghost use Rattle.linear_form.specs.internal.Parts.{operated};
ghost use Rattle.linear_form.specs.internal.PlainParts.{outcome_of};
ghost use Rattle.linear_form.specs.internal.Run.{along};
ghost use Rattle.linear_form.specs.internal.Steps.{Comes};
ghost use Rattle.linear_form.specs.PlainPaths.{path_of};
ghost use Rattle.linear_values.specs.Lin.{Linear};

use crate::cursor::{Found, Stop, Tested};
use crate::operators::{
    at_most, co_imply, co_validate, cut, difference, equal, imply, less, max, min, product, scale,
    sum, validate,
};
use crate::parts::{Operation, Outcome};
use crate::paths::Taken;
use heylo_graph::Node;
use linear_values::lin::is_nothing;
use std::alloc::Global;
use std::rc::Rc;

/// The result of a part, and the index of the next answer of the path.
#[derive(Drop)]
pub(crate) struct Came {
    pub outcome: Outcome,
    pub next: usize,
}

fn number_came(alloc: Global, found: Result<Found, Stop>) -> Result<Came, Stop>
    ensures { (ps : List PlainTaken) (q : Query Linear) (i : ℕ) → Gives found (along ps q i)
        → Comes result (along ps (valued q) i) }
{
    let Found { value, next } = found?;
    let outcome = Outcome::Number(Rc::new(alloc, value)?);
    Ok(Came { outcome, next })
}

fn truth_came(tested: Result<Tested, Stop>) -> Result<Came, Stop>
    ensures { (ps : List PlainTaken) (q : Query Bool) (i : ℕ) → GivesTruth tested (along ps q i)
        → Comes result (along ps (told q) i) }
{
    let Tested { holds, next } = tested?;
    let outcome = Outcome::Truth(holds);
    Ok(Came { outcome, next })
}

/// Returns the result of `operation` on the results of two parts; `at` is the index of the next
/// answer of `path`.
pub(crate) fn operated(
    alloc: Global,
    operation: &Operation,
    first: &Outcome,
    second: &Outcome,
    path: &[Taken],
    at: usize,
) -> Result<Came, Stop>
    requires first { IsKeptResult (outcome_of first.now) }
    requires second { IsKeptResult (outcome_of second.now) }
    ensures { Comes result (along (path_of path.now)
        (operated operation.now (outcome_of first.now) (outcome_of second.now)) at) }
{
    let Outcome::Number(x) = first else {
        return Err(Stop::Bits);
    };
    let Outcome::Number(y) = second else {
        return Err(Stop::Bits);
    };
    let Operation::Of(node) = operation else {
        let outcome = Outcome::Ends(Rc::clone(x)?, Rc::clone(y)?);
        return Ok(Came { outcome, next: at });
    };
    match node {
        Node::Sum(_, _) if is_nothing(x) => {
            let outcome = second.clone()?;
            Ok(Came { outcome, next: at })
        }
        Node::Sum(_, _) => number_came(alloc, sum(alloc, x, y, path, at)),
        Node::Diff(_, _) => number_came(alloc, difference(alloc, x, y, path, at)),
        Node::Cut(_, _) => number_came(alloc, cut(alloc, x, y, path, at)),
        Node::Scale(w, _) => number_came(alloc, scale(alloc, w, y, at)),
        Node::Product(_, _, _) => number_came(alloc, product(alloc, x, y, path, at)),
        Node::Min(_, _) => number_came(alloc, min(alloc, x, y, path, at)),
        Node::Max(_, _) => number_came(alloc, max(alloc, x, y, path, at)),
        Node::Imply(_, _) => number_came(alloc, imply(alloc, x, y, path, at)),
        Node::CoImply(_, _) => number_came(alloc, co_imply(alloc, x, y, path, at)),
        Node::Validate(_) => number_came(alloc, Ok(validate(alloc, y, at))),
        Node::CoValidate(_) => number_came(alloc, co_validate(alloc, y, path, at)),
        Node::Le(_, _) => truth_came(at_most(alloc, x, y, path, at)),
        Node::Lt(_, _) => truth_came(less(alloc, x, y, path, at)),
        Node::EqNum(_, _) => truth_came(equal(alloc, x, y, path, at)),
        _ => Err(Stop::Bits),
    }
}
