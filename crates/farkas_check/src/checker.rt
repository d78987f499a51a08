//! The check of a certificate.

ghost use Rattle.std.specs.Prelude.{◌≡◌, ◌↔◌, List, map, Bool, IfOk};
ghost use Rattle.heylo_formula.specs.Goals.{goal_of, Holds};
ghost use Rattle.heylo_formula.specs.TypedGoals.{IsTypedGoal};
ghost use Rattle.linear_form.specs.Paths.{IsPath};
ghost use Rattle.linear_form.specs.Places.{IsOn};
ghost use Rattle.linear_form.specs.PlainPaths.{path_of, atom_of};
ghost use Rattle.linear_form.specs.Query.{onto};
ghost use Rattle.goal_answers.specs.Trees.{Tree as PlainTree, tree_of};
ghost use Rattle.farkas_check.specs.AcceptedCertificates.{IsCertificate, IsNoCertificate};
ghost use Rattle.farkas_check.specs.Verdicts.{IsNoAt};
ghost use Rattle.farkas_check.specs.internal.Trails.{IsTrail};
ghost use Rattle.farkas_check.specs.internal.Findings.{IsJudgement, IsFindingAtStart, AreFindings};
ghost use Rattle.farkas_check.specs.internal.Findings.{IsRefusedAt};

use crate::ends::{can_split, is_plain_at, rows_there};
use crate::trail::{Trail, copy_atom, further, shorter};
use goal_answers::{Checked, Tree};
use heylo_formula::Goal;
use linear_form::{Ask, Atom, Place, Reached, RowList, Taken, begin, go_on, nonlinear, split};
use linear_rows::contradicts;
use std::alloc::{AllocError, Global};

/// The result on a tree at the end of a path: it is accepted, and the trail is returned, or refused
/// at a node, with the answers on the way to it.
#[derive(Drop)]
enum Judged {
    Accepted(Trail),
    Refused(Vec<bool>),
}

/// Returns the answers of `path`.
fn answers_of(alloc: Global, path: &[Taken]) -> Result<Vec<bool>, AllocError>
    ensures { IfOk result (λ v. v.items ≡ map (λ p. p.held) path.now) }
{
    path.iter().map(|taken| taken.held).collect(alloc)
}

/// Refuses a tree at the end of `path`.
fn refused_at(alloc: Global, path: &[Taken]) -> Result<Judged, AllocError>
    ensures { IfOk result (IsRefusedAt path.now) }
{
    Ok(Judged::Refused(answers_of(alloc, path)?))
}

/// Judges multipliers at the end of `trail`.
fn judge_multipliers(
    alloc: Global,
    goal: &Goal,
    place: &Place,
    trail: Trail,
    multipliers: &[(u32, u64)],
) -> Result<Judged, AllocError>
    requires trail { IsTrail (goal_of goal.now) trail }
    requires on { IsOn (goal_of goal.now) (path_of trail.path.items) place.now }
    ensures { IfOk result (IsJudgement (goal_of goal.now) trail
        (PlainTree.farkas multipliers.now)) }
{
    if !trail.stated {
        return refused_at(alloc, &trail.path);
    }
    let Trail {
        path,
        rows,
        stated: _,
    } = trail;
    let count = rows.len();
    match rows_there(alloc, goal, place, &path, rows)? {
        RowList::Bits => refused_at(alloc, &path),
        RowList::Rows(mut list) => {
            if contradicts(&list, multipliers) {
                list.truncate(count);
                Ok(Judged::Accepted(Trail {
                    path,
                    rows: list,
                    stated: true,
                }))
            } else {
                refused_at(alloc, &path)
            }
        }
    }
}

/// Walks through `tree` from the end of `trail`, in the order of the text; `place` is an evaluation
/// on its path.
#[cycle(judging)]
fn judge(
    alloc: Global,
    goal: &Goal,
    place: &Place,
    trail: Trail,
    tree: &Tree,
) -> Result<Judged, AllocError>
    requires trail { IsTrail (goal_of goal.now) trail }
    requires on { IsOn (goal_of goal.now) (path_of trail.path.items) place.now }
    ensures { IfOk result (IsJudgement (goal_of goal.now) trail (tree_of tree.now)) }
{
    match tree {
        Tree::Split(holds, fails) => {
            let Reached { ask, place: next } = go_on(alloc, goal, place, &trail.path)?;
            match ask {
                Ask::Decide(atom) => judge_both(alloc, goal, &next, trail, atom, holds, fails),
                Ask::End(_, _) => refused_at(alloc, &trail.path),
                Ask::Bits => refused_at(alloc, &trail.path),
            }
        }
        Tree::Whole(variable, bound, below, above) => {
            if can_split(alloc, goal, place, &trail.path, *variable)? {
                let atom = split(alloc, *variable, *bound)?;
                judge_both(alloc, goal, place, trail, atom, below, above)
            } else {
                refused_at(alloc, &trail.path)
            }
        }
        Tree::Farkas(multipliers) => judge_multipliers(alloc, goal, place, trail, multipliers),
        Tree::Plain => {
            if is_plain_at(alloc, goal, place, &trail.path)? {
                Ok(Judged::Accepted(trail))
            } else {
                refused_at(alloc, &trail.path)
            }
        }
    }
}

/// Walks through the two trees after the answers to a comparison or a split at the end of `trail`.
#[cycle(judging)]
fn judge_both(
    alloc: Global,
    goal: &Goal,
    place: &Place,
    trail: Trail,
    atom: Atom,
    first: &Tree,
    second: &Tree,
) -> Result<Judged, AllocError>
    requires trail { IsTrail (goal_of goal.now) trail }
    requires on { IsOn (goal_of goal.now) (path_of trail.path.items) place.now }
    requires answers { (held : Bool)
        → IsPath (goal_of goal.now) (onto (path_of trail.path.items) (atom_of atom) held) }
    ensures { IfOk result (AreFindings (goal_of goal.now) trail (atom_of atom) (tree_of first.now)
        (tree_of second.now)) }
{
    let count = trail.rows.len();
    let stated = trail.stated;
    let again = copy_atom(alloc, &atom)?;
    let yes = further(alloc, goal, trail, Taken { atom, held: true })?;
    match judge(alloc, goal, place, yes, first)? {
        Judged::Refused(refused) => Ok(Judged::Refused(refused)),
        Judged::Accepted(back) => {
            let here = shorter(back, count, stated);
            let answer = Taken {
                atom: again,
                held: false,
            };
            let no = further(alloc, goal, here, answer)?;
            match judge(alloc, goal, place, no, second)? {
                Judged::Refused(refused) => Ok(Judged::Refused(refused)),
                Judged::Accepted(back) => Ok(Judged::Accepted(shorter(back, count, stated))),
            }
        }
    }
}

/// Walks through `tree` from before the first comparison.
fn judge_from_start(alloc: Global, goal: &Goal, tree: &Tree) -> Result<Judged, AllocError>
    ensures { IfOk result (IsFindingAtStart (goal_of goal.now) (tree_of tree.now)) }
{
    let place = begin(alloc, goal)?;
    let trail = Trail {
        path: Vec::new(alloc),
        rows: Vec::new(alloc),
        stated: true,
    };
    judge(alloc, goal, &place, trail, tree)
}

/// Checks a certificate of a goal. Returns `Yes` exactly if each node is one that the goal allows
/// at the end of its path:
///
/// - a split, if there is a next comparison;
/// - multipliers that combine the rows of the path to a contradiction;
/// - a plain leaf, at an end at which the goal holds trivially;
/// - a split of an `Int` or `UInt` variable of the goal, at an end at which it does not.
///
/// Otherwise returns `No` with the answers on the way to the first other node, in the order of the
/// text. A goal with a nonlinear product is refused at the root. A typed goal with a certificate
/// holds in each state.
pub fn check(alloc: Global, goal: &Goal, tree: &Tree) -> Result<Checked, AllocError>
    ensures yes { IfOk result (λ c. (c ≡ Checked.Yes)
        ↔ IsCertificate (goal_of goal.now) (tree_of tree.now)) }
    ensures no { IfOk result (λ c. (place : List Bool) → IsNoAt c place
        ↔ IsNoCertificate (goal_of goal.now) (tree_of tree.now) place) }
    ensures holds { IsTypedGoal (goal_of goal.now)
        → IfOk result (λ c. c ≡ Checked.Yes → Holds (goal_of goal.now)) }
{
    match nonlinear(goal) {
        Some(_) => Ok(Checked::No(Vec::new(alloc))),
        None => match judge_from_start(alloc, goal, tree)? {
            Judged::Accepted(_) => Ok(Checked::Yes),
            Judged::Refused(place) => Ok(Checked::No(place)),
        },
    }
}
