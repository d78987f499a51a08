//! The path of a walk, with the data that is kept along it.

ghost use Rattle.std.specs.Prelude.{◌≡◌, ◌<◌, ◌++◌, ◌∷◌, List, [], length, Bool, IfOk, IfSome};
ghost use Rattle.std.specs.Prelude.{IsTrue};
ghost use Rattle.heylo_formula.specs.Goals.{Goal as PlainGoal, goal_of};
ghost use Rattle.linear_form.specs.PathRows.{answer_claims};
ghost use Rattle.linear_form.specs.PlainPaths.{path_of, atom_of, taken_of};
ghost use Rattle.linear_form.specs.Query.{Taken as PlainTaken};
ghost use Rattle.linear_form.specs.RowLists.{ArePathRows};
ghost use Rattle.region_split.specs.internal.Trails.{Comes, Rises, Stands, StandsAt, IsWay, IsBack};
ghost use Rattle.region_split.specs.internal.Trails.{ComesBy};

use crate::atoms::Atoms;
use heylo_formula::Goal;
use linear_form::{Atom, Place, Taken, begin};
use linear_guess::Search;
use linear_rows::{Occurrences, Row};
use std::alloc::{AllocError, Global};

/// The data kept for an answered comparison.
#[derive(Drop)]
pub enum Way {
    /// The evaluation that asked the comparison.
    Open(Place),
    /// The path had answered the comparison before, so the walk does not visit the opposite answer.
    /// If this answer is yes, these are the multipliers of a certificate at the opposite answer.
    Closed(Vec<(u32, u64)>),
}

/// The path of a walk, with the data that is kept along it.
#[derive(Drop)]
pub struct Trail {
    /// The answered comparisons.
    pub path: Vec<Taken>,
    /// The evaluation before the first comparison, followed by the data of each answered
    /// comparison.
    pub places: Vec<Way>,
    /// The rows of the answers, in order.
    pub rows: Vec<Row>,
    /// The comparisons that the walk has asked.
    pub atoms: Atoms,
    /// The first row in which each variable occurs.
    pub occurrences: Occurrences,
    /// The points and multipliers found for the rows.
    pub search: Box<Search>,
}

/// Returns the trail before the first comparison.
pub fn start(alloc: Global, goal: &Goal) -> Result<Trail, AllocError>
    ensures { IfOk result (λ t. Comes (goal_of goal.now) t × (path_of t.path.items ≡ [])) }
{
    let mut places: Vec<Way> = Vec::new(alloc);
    places.push(Way::Open(begin(alloc, goal)?))?;
    Ok(Trail {
        path: Vec::new(alloc),
        places,
        rows: Vec::new(alloc),
        atoms: Atoms::new(alloc),
        occurrences: Occurrences::new(alloc, goal.vars.len())?,
        search: Box::new(alloc, Search::new(alloc))?,
    })
}

/// Appends `answer` with its data `way`, and removes what is known of rows that are no part of the
/// path. The answer has no row yet.
pub fn onward(trail: &mut Trail, answer: Taken, way: Way) -> Result<(), AllocError>
    ensures { (g : PlainGoal) → Rises g trail.old
        → IsWay g (path_of trail.old.path.items) (taken_of answer) way
        → IfOk result (λ _. ComesBy g trail.old answer trail.new) }
{
    let count = trail.rows.len();
    trail.occurrences.truncate(count);
    trail.search.truncate(count);
    trail.path.push(answer)?;
    trail.places.push(way)?;
    Ok(())
}

/// Appends `answer` with its data `way` and its row.
pub fn further(trail: &mut Trail, answer: Taken, way: Way, row: Row) -> Result<(), AllocError>
    ensures { (g : PlainGoal) (ps : List PlainTaken) → Stands g trail.old
        → ps ≡ path_of trail.old.path.items ++ (taken_of answer ∷ [])
        → IsWay g (path_of trail.old.path.items) (taken_of answer) way
        → ArePathRows g ps (trail.old.rows.items ++ (row ∷ []))
        → IfOk result (λ _. StandsAt g ps trail.new) }
{
    let count = trail.rows.len();
    trail.path.push(answer)?;
    trail.places.push(way)?;
    trail.rows.push(row)?;
    trail.occurrences.note(&trail.rows, count);
    Ok(())
}

/// Returns whether `atom` compares numbers, so that its answers have a row.
pub fn is_comparison(atom: &Atom) -> bool
    ensures { (held : Bool) → IsTrue result → length (answer_claims (atom_of atom.now) held) ≡ 1 }
{
    match atom {
        Atom::Truth(_) => false,
        Atom::Row(_, _) => true,
    }
}

/// Returns the number of rows of an answer to `atom`: 1 for numbers, 0 for a Boolean.
fn row_count(atom: &Atom) -> usize
    ensures { (held : Bool) → length (answer_claims (atom_of atom.now) held) ≡ result }
{
    match atom {
        Atom::Truth(_) => 0,
        Atom::Row(_, _) => 1,
    }
}

/// Removes the last answer and its row, and returns the answer with its data.
pub fn back(trail: &mut Trail) -> Option<(Taken, Way)>
    ensures back { (g : PlainGoal) → Rises g trail.old → IsBack g trail.old trail.new result }
    ensures shorter { IfSome result
        (λ _. length trail.new.path.items < length trail.old.path.items) }
{
    let Some(answer) = trail.path.pop() else {
        return None;
    };
    let Some(way) = trail.places.pop() else {
        return None;
    };
    let left = trail.rows.len().saturating_sub(row_count(&answer.atom));
    trail.rows.truncate(left);
    Some((answer, way))
}
