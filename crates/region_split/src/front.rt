//! The classification of a path of the walk.

ghost use Rattle.std.specs.Prelude.{◌<◌, ◌+◌, ◌++◌, ◌∷◌, ◌^◌, ◌≡◌, List, [], length, IfOk, IfSome};
ghost use Rattle.std.specs.Prelude.{IsTrue, Some, true, false};
ghost use Rattle.heylo_formula.specs.Goals.{Goal as PlainGoal, goal_of};
ghost use Rattle.heylo_formula.specs.Typing.{types_in};
ghost use Rattle.linear_form.specs.AskAnswers.{Answers};
ghost use Rattle.linear_form.specs.Query.{Taken as PlainTaken};
ghost use Rattle.linear_form.specs.Cells.{IsKeptPath};
ghost use Rattle.linear_form.specs.LastingPaths.{IsNoEnd};
ghost use Rattle.linear_form.specs.Paths.{IsPath, end_at};
ghost use Rattle.linear_values.specs.Tightening.{all_tightened};
ghost use Rattle.linear_form.specs.PathRows.{path_claims, rows_of};
ghost use Rattle.linear_form.specs.declared.questions.Ask.TheVariants.{End as EndFound};
ghost use Rattle.linear_form.specs.PlainPaths.{path_of};
ghost use Rattle.linear_form.specs.RowLists.{Lists};
ghost use Rattle.heylo_formula.specs.TypedGoals.{IsTypedGoal};
ghost use Rattle.farkas_check.specs.AcceptedCertificates.{has_denied, IsRefutedWith};
ghost use Rattle.linear_form.specs.Places.{IsOn};
ghost use Rattle.region_split.specs.internal.KnownComparisons.{AreKnown};
ghost use Rattle.region_split.specs.internal.PathFindings.{IsSeen, IsEndOf};
ghost use Rattle.region_split.specs.internal.Trails.{ArePlaces, AreRowsSoFar, Comes, Stands};
ghost use Rattle.region_split.specs.declared.trail.Way.TheVariants.{Open};

use crate::atoms::Atoms;
use crate::known_comparisons::copy_row;
use crate::moved_multipliers::{moved, places};
use crate::solver::{Settled, settle};
use crate::trail::{Trail, Way};
use goal_answers::Cause;
use heylo_formula::Goal;
use linear_form::{
    Ask, Atom, Place, Reached, RowList, Taken, asks_on, begin, denied_rows_are_more, go_on,
    go_on_from, holds_plainly, next_row, with_denied_goal, with_signs_of_path,
};
use linear_rows::Row;
use linear_values::Lin;
use std::alloc::{AllocError, Global};

/// The values of the stated bound and of the computed form at an end, None for infinity, and
/// whether the goal holds trivially there.
#[derive(Drop)]
pub struct End {
    pub stated: Option<Lin>,
    pub found: Option<Lin>,
    pub plain: bool,
}

/// The kind of a path of the walk.
#[derive(Drop)]
pub enum Front {
    /// The rows of the path have no solution: the multipliers of a certificate, by row index.
    Dropped(Vec<(u32, u64)>),
    /// The next comparison, and the evaluation that asks it.
    Question(Atom, Place),
    /// No comparison is left.
    End(End),
    /// There are more than 4,096 rows, or a number overflows.
    Unknown(Cause),
}

/// Classifies the path of `trail`, and adds the row of the last answer to the trail.
pub fn look(alloc: Global, goal: &Goal, trail: &mut Trail) -> Result<Front, AllocError>
    requires path { IsPath (goal_of goal.now) (path_of trail.old.path.items) }
    requires typed { IsTypedGoal (goal_of goal.now) }
    requires short { length trail.old.path.items + 1 + length goal.now.vars.items < 2 ^ 32 }
    requires comes { Comes (goal_of goal.now) trail.old }
    ensures { IfOk result (λ f.
        IsSeen (goal_of goal.now) (path_of trail.old.path.items) trail.new f) }
{
    let noted = trail.rows.len();
    let before = std::mem::replace(&mut trail.rows, Vec::new(alloc));
    match with_last_row(alloc, goal, &trail.path, &trail.atoms, before)? {
        RowList::Rows(rows) => {
            trail.rows = rows;
            trail.occurrences.note(&trail.rows, noted);
            look_there(alloc, goal, trail)
        }
        RowList::Bits => Ok(Front::Unknown(Cause::Bits)),
    }
}

/// Returns the rows of the answers of `path`; `rows` may lack that of the last answer. `atoms` may
/// know this row.
fn with_last_row(
    alloc: Global,
    goal: &Goal,
    path: &[Taken],
    atoms: &Atoms,
    mut rows: Vec<Row>,
) -> Result<RowList, AllocError>
    requires path { IsPath (goal_of goal.now) (path_of path.now) }
    requires known { AreKnown (goal_of goal.now).types atoms.now }
    requires rows { AreRowsSoFar (goal_of goal.now) (path_of path.now) rows.items }
    ensures { IfOk result (λ r.
        Lists r (all_tightened (types_in (goal_of goal.now).types)
        (path_claims (path_of path.now)))) }
{
    let Some((answer, _)) = path.split_last() else {
        return Ok(RowList::Rows(rows));
    };
    match atoms.row_of(answer) {
        Some(row) => {
            rows.push(copy_row(alloc, row)?)?;
            Ok(RowList::Rows(rows))
        }
        None => next_row(alloc, goal, path, rows),
    }
}

/// Classifies the path of `trail`, which has all its rows.
fn look_there(alloc: Global, goal: &Goal, trail: &mut Trail) -> Result<Front, AllocError>
    requires path { IsPath (goal_of goal.now) (path_of trail.old.path.items) }
    requires typed { IsTypedGoal (goal_of goal.now) }
    requires short { length trail.old.path.items + 1 + length goal.now.vars.items < 2 ^ 32 }
    requires stands { Stands (goal_of goal.now) trail.old }
    ensures { IfOk result (λ f.
        IsSeen (goal_of goal.now) (path_of trail.old.path.items) trail.new f) }
{
    let kept_rows = trail.rows.len();
    let rows = std::mem::replace(&mut trail.rows, Vec::new(alloc));
    let RowList::Rows(mut list) = with_signs_of_path(
        alloc,
        goal,
        &trail.path,
        rows,
        &trail.occurrences,
    )?
    else {
        return Ok(Front::Unknown(Cause::Bits));
    };
    let settled = settle(alloc, &list, kept_rows, &goal.vars, &mut trail.search)?;
    let signs = list.split_off(kept_rows)?;
    trail.rows = list;
    match settled {
        Settled::Refuted(multipliers) => dropped(alloc, goal, trail, &signs, multipliers),
        Settled::Met => kept(alloc, goal, trail),
        Settled::Unknown(cause) => Ok(Front::Unknown(cause)),
    }
}

/// Returns the evaluation that asked the last comparison, if it is kept.
fn last_place(places: &[Way]) -> Option<&Place>
    ensures on { (g : PlainGoal) (ps : List PlainTaken) → ArePlaces g ps places.now
        → IfSome result (λ p. IsOn g ps p.now) }
    ensures asked { (g : PlainGoal) (ps : List PlainTaken) (t : PlainTaken)
        → ArePlaces g (ps ++ (t ∷ [])) places.now → IfSome result (λ p. IsOn g ps p.now) }
{
    match places.last() {
        Some(way) => open_place(way),
        None => None,
    }
}

fn open_place(way: &Way) -> Option<&Place>
    ensures { IfSome result (λ p. way.now ≡ Open p.now) }
{
    match way {
        Way::Open(place) => Some(place),
        Way::Closed(_) => None,
    }
}

/// Returns what is at the end of `path`, evaluated from the last one of `places`.
fn reached(
    alloc: Global,
    goal: &Goal,
    path: &[Taken],
    places: &[Way],
) -> Result<Reached, AllocError>
    requires path { IsPath (goal_of goal.now) (path_of path.now) }
    requires places { ArePlaces (goal_of goal.now) (path_of path.now) places.now }
    ensures asked { IfOk result
        (λ r. Answers r.ask (end_at (goal_of goal.now) (path_of path.now))) }
    ensures on { IfOk result (λ r. IsOn (goal_of goal.now) (path_of path.now) r.place) }
{
    match last_place(places) {
        Some(place) => go_on(alloc, goal, place, path),
        None => {
            let first = begin(alloc, goal)?;
            go_on_from(alloc, goal, first, path)
        }
    }
}

/// Classifies a path whose rows are solvable.
fn kept(alloc: Global, goal: &Goal, trail: &Trail) -> Result<Front, AllocError>
    requires path { IsPath (goal_of goal.now) (path_of trail.now.path.items) }
    requires stands { Stands (goal_of goal.now) trail.now }
    ensures { IsKeptPath (goal_of goal.now) (path_of trail.now.path.items)
        → IfOk result (λ f. IsSeen (goal_of goal.now) (path_of trail.now.path.items) trail.now f) }
{
    let Reached { ask, place } = reached(alloc, goal, &trail.path, &trail.places)?;
    match ask {
        Ask::Decide(atom) => Ok(Front::Question(atom, place)),
        Ask::End(stated, found) => Ok(Front::End(end_of(goal, stated, found))),
        Ask::Bits => Ok(Front::Unknown(Cause::Bits)),
    }
}

/// Returns the end with the given values.
pub fn end_of(goal: &Goal, stated: Option<Lin>, found: Option<Lin>) -> End
    ensures { (ps : List PlainTaken) → IsKeptPath (goal_of goal.now) ps
        → Answers (EndFound stated found) (end_at (goal_of goal.now) ps)
        → IsEndOf (goal_of goal.now) ps result }
{
    let plain = holds_plainly(goal.upper, &stated, &found);
    End {
        stated,
        found,
        plain,
    }
}

/// Returns true only if the path is surely not at an end: a comparison is left, or a number
/// overflows.
fn surely_lasts(path: &[Taken], places: &[Way]) -> bool
    ensures { (g : PlainGoal) → IsTrue result → IsPath g (path_of path.now)
        → ArePlaces g (path_of path.now) places.now → IsNoEnd g (path_of path.now) }
{
    match path.split_last() {
        None => false,
        Some((_, before)) => match last_place(places) {
            Some(place) => asks_on(place, before.len()),
            None => false,
        },
    }
}

/// Returns the multipliers of a certificate at a path whose rows `multipliers` refute. At an end at
/// which the goal does not hold trivially, the rows of a certificate include the denied goal,
/// before the rows of signs.
fn dropped(
    alloc: Global,
    goal: &Goal,
    trail: &mut Trail,
    signs: &[Row],
    multipliers: Vec<(u32, u64)>,
) -> Result<Front, AllocError>
    requires path { IsPath (goal_of goal.now) (path_of trail.old.path.items) }
    requires short { length trail.old.path.items + 1 + length goal.now.vars.items < 2 ^ 32 }
    requires stands { Stands (goal_of goal.now) trail.old }
    requires rows { rows_of (goal_of goal.now) (path_of trail.old.path.items) false
        ≡ Some (trail.old.rows.items ++ signs.now) }
    requires refuted { IsRefutedWith (goal_of goal.now)
        (path_of trail.old.path.items) false multipliers.items }
    ensures { IfOk result (λ f.
        IsSeen (goal_of goal.now) (path_of trail.old.path.items) trail.new f) }
{
    if surely_lasts(&trail.path, &trail.places) {
        return Ok(Front::Dropped(multipliers));
    }
    let Reached { ask, place: _ } = reached(alloc, goal, &trail.path, &trail.places)?;
    match ask {
        Ask::Decide(_) => Ok(Front::Dropped(multipliers)),
        Ask::Bits => Ok(Front::Dropped(multipliers)),
        Ask::End(stated, found) => {
            if holds_plainly(goal.upper, &stated, &found) {
                Ok(Front::Dropped(multipliers))
            } else {
                dropped_end(alloc, goal, trail, &stated, &found, signs, &multipliers)
            }
        }
    }
}

/// Returns the multipliers of a certificate at a dropped end at which the goal does not hold
/// trivially: those for the rows without the denied goal, with the indexes of these rows among
/// those with it, or an overflow of the denied goal.
fn dropped_end(
    alloc: Global,
    goal: &Goal,
    trail: &mut Trail,
    stated: &Option<Lin>,
    found: &Option<Lin>,
    signs: &[Row],
    multipliers: &[(u32, u64)],
) -> Result<Front, AllocError>
    requires path { IsPath (goal_of goal.now) (path_of trail.old.path.items) }
    requires short { length trail.old.path.items + 1 + length goal.now.vars.items < 2 ^ 32 }
    requires stands { Stands (goal_of goal.now) trail.old }
    requires ends { Answers (EndFound stated.now found.now)
        (end_at (goal_of goal.now) (path_of trail.old.path.items)) }
    requires rows { rows_of (goal_of goal.now) (path_of trail.old.path.items) false
        ≡ Some (trail.old.rows.items ++ signs.now) }
    requires refuted { IsRefutedWith (goal_of goal.now)
        (path_of trail.old.path.items) false multipliers.now }
    requires denied { has_denied (goal_of goal.now) (path_of trail.old.path.items) ≡ true }
    ensures { IfOk result (λ f.
        IsSeen (goal_of goal.now) (path_of trail.old.path.items) trail.new f) }
{
    let kept_rows = trail.rows.len();
    let rows = std::mem::replace(&mut trail.rows, Vec::new(alloc));
    let RowList::Rows(mut more) = with_denied_goal(alloc, goal, &trail.path, stated, found, rows)?
    else {
        return Ok(Front::Unknown(Cause::Bits));
    };
    denied_rows_are_more();
    let moved_signs = places(alloc, signs, &more, kept_rows + 1)?;
    let moved_all = moved(alloc, multipliers, kept_rows, &moved_signs)?;
    more.truncate(kept_rows);
    trail.rows = more;
    Ok(Front::Dropped(moved_all))
}
