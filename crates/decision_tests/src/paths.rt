//! Paths of tests.

ghost use Rattle.std.specs.Prelude.{IfOk, IfSome};
ghost use Rattle.heylo_formula.specs.Goals.{goal_of};
ghost use Rattle.linear_form.specs.Paths.{IsPath};
ghost use Rattle.linear_form.specs.PlainPaths.{path_of};

use heylo_formula::Goal;
use linear_form::{Ask, Taken, ask};
use std::alloc::{AllocError, Global};

/// Returns the path with one more answer, or `None` if there is no further comparison.
pub fn extended(
    alloc: Global,
    goal: &Goal,
    mut path: Vec<Taken>,
    held: bool,
) -> Result<Option<Vec<Taken>>, AllocError>
    requires { IsPath (goal_of goal.now) (path_of path.items) }
    ensures { IfOk result (λ o. IfSome o (λ ps. IsPath (goal_of goal.now) (path_of ps.items))) }
{
    match ask(alloc, goal, &path)? {
        Ask::Decide(atom) => {
            path.push(Taken { atom, held })?;
            Ok(Some(path))
        }
        Ask::End(_, _) => Ok(None),
        Ask::Bits => Ok(None),
    }
}

/// Returns the path with these answers to the goal's comparisons, a letter for each: `t` if it
/// holds, `f` if it fails. Returns `None` if there are fewer comparisons.
pub fn path_with(
    alloc: Global,
    goal: &Goal,
    answers: &str,
) -> Result<Option<Vec<Taken>>, AllocError>
    ensures { IfOk result (λ o. IfSome o (λ ps. IsPath (goal_of goal.now) (path_of ps.items))) }
{
    let mut path = Vec::new(alloc);
    let mut rest = answers.as_bytes();
    'answers: while let Some((letter, others)) = rest.split_first() {
        match extended(alloc, goal, path, *letter == b't')? {
            None => return Ok(None),
            Some(longer) => path = longer,
        }
        rest = others;
    }
    Ok(Some(path))
}
