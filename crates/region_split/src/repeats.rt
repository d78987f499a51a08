//! Comparisons that the path has answered before.

ghost use Rattle.std.specs.Prelude.{◌<◌, ◌+◌, ◌^◌, List, length, IfOk};
ghost use Rattle.heylo_formula.specs.Goals.{Goal as PlainGoal, goal_of};
ghost use Rattle.linear_form.specs.Cells.{GoesOn};
ghost use Rattle.linear_form.specs.Paths.{IsPath};
ghost use Rattle.linear_form.specs.Places.{IsOn};
ghost use Rattle.linear_form.specs.PlainPaths.{path_of, atom_of};
ghost use Rattle.linear_form.specs.Query.{Taken as PlainTaken};
ghost use Rattle.region_split.specs.internal.Trails.{Stands, StandsAt};
ghost use Rattle.region_split.specs.internal.KnownComparisons.{IsNumber, IsRecalled};
ghost use Rattle.region_split.specs.internal.Repeats.{IsAsked, IsRepeat};

use crate::answer_rows::{Both, rows_of_answers};
use crate::known_comparisons::{Recalled, copy_row};
use crate::trail::{Trail, Way, further, is_comparison};
use goal_answers::Cause;
use heylo_formula::Goal;
use linear_form::{Atom, Place, Taken, asks_on, repeated_rows_stand};
use std::alloc::{AllocError, Global};

/// How the path has answered its next comparison.
#[derive(Drop)]
pub enum Repeat {
    /// The comparison may be new; the trail is unchanged.
    New(Atom),
    /// The path has answered it with yes, and so does the trail.
    Yes,
    /// The path has answered it with no, and so does the trail: the multipliers of a certificate at
    /// the opposite answer.
    No(Vec<(u32, u64)>),
    /// A number overflows.
    Unknown(Cause),
}

/// Returns how the path of `trail` has answered its next comparison `atom`, which `place` asks.
pub fn repeated(
    alloc: Global,
    goal: &Goal,
    trail: &mut Trail,
    atom: Atom,
    place: &Place,
) -> Result<Repeat, AllocError>
    requires path { IsPath (goal_of goal.now) (path_of trail.old.path.items) }
    requires short { length trail.old.path.items + 1 + length goal.now.vars.items < 2 ^ 32 }
    requires stands { Stands (goal_of goal.now) trail.old }
    requires goes_on { GoesOn (goal_of goal.now) (path_of trail.old.path.items) (atom_of atom) }
    requires on { IsOn (goal_of goal.now) (path_of trail.old.path.items) place.now }
    ensures { IfOk result (λ r.
        IsRepeat (goal_of goal.now) (path_of trail.old.path.items) (atom_of atom) trail.new r) }
{
    if !is_comparison(&atom) {
        return Ok(Repeat::New(atom));
    }
    if let Some(number) = trail.atoms.find(&atom) {
        return met_again(alloc, goal, trail, atom, number, place);
    }
    match rows_of_answers(alloc, goal, trail, atom)? {
        Both::Rows(question, rows) => match trail.atoms.add(alloc, &question, rows)? {
            Some(number) => met_again(alloc, goal, trail, question, number, place),
            None => Ok(Repeat::New(question)),
        },
        Both::Lost(question) => Ok(Repeat::New(question)),
        Both::Unknown(cause) => Ok(Repeat::Unknown(cause)),
    }
}

fn met_again(
    alloc: Global,
    goal: &Goal,
    trail: &mut Trail,
    atom: Atom,
    number: usize,
    place: &Place,
) -> Result<Repeat, AllocError>
    requires path { IsPath (goal_of goal.now) (path_of trail.old.path.items) }
    requires short { length trail.old.path.items + 1 + length goal.now.vars.items < 2 ^ 32 }
    requires stands { Stands (goal_of goal.now) trail.old }
    requires goes_on { GoesOn (goal_of goal.now) (path_of trail.old.path.items) (atom_of atom) }
    requires number { IsNumber trail.old.atoms (atom_of atom) number }
    requires on { IsOn (goal_of goal.now) (path_of trail.old.path.items) place.now }
    ensures { IfOk result (λ r.
        IsRepeat (goal_of goal.now) (path_of trail.old.path.items) (atom_of atom) trail.new r) }
{
    let lasts = asks_on(place, trail.path.len());
    match trail.atoms.recall(number, &trail.rows) {
        Some(recalled) if lasts => again(alloc, trail, atom, recalled),
        _ => Ok(Repeat::New(atom)),
    }
}

/// Repeats the answer that the path has given before.
fn again(
    alloc: Global,
    trail: &mut Trail,
    atom: Atom,
    recalled: Recalled,
) -> Result<Repeat, AllocError>
    requires few { length trail.old.rows.items < 2 ^ 32 }
    requires inside { recalled.index < length trail.old.rows.items }
    ensures { (g : PlainGoal) (ps : List PlainTaken) → IsAsked g ps (atom_of atom)
        → StandsAt g ps trail.old → IsRecalled g.types trail.old.rows.items (atom_of atom) recalled
        → IfOk result (λ r. IsRepeat g ps (atom_of atom) trail.new r) }
{
    repeated_rows_stand();
    let row = copy_row(alloc, &trail.rows[recalled.index])?;
    let first = recalled.index as u32;
    let second = trail.rows.len() as u32;
    let multipliers = vec![in alloc; (first, 1), (second, 1)]?;
    if recalled.held {
        let answer = Taken { atom, held: true };
        further(trail, answer, Way::Closed(multipliers), row)?;
        Ok(Repeat::Yes)
    } else {
        let answer = Taken { atom, held: false };
        further(trail, answer, Way::Closed(Vec::new(alloc)), row)?;
        Ok(Repeat::No(multipliers))
    }
}
