//! The elimination of variables, one after the other.
ghost use Rattle.std.specs.Prelude.{◌≡◌, ◌<◌, ◌+◌, ◌^◌, ◌&&◌, length, true, Some, IfOk};
ghost use Rattle.std.specs.List.{All};
ghost use Rattle.linear_elim.specs.internal.DerivedRows.{IsDerived};
ghost use Rattle.linear_elim.specs.Elimination.{run};
ghost use Rattle.linear_elim.specs.Elimination.Rule.{keeps};
ghost use Rattle.linear_elim.specs.Elimination.Outcome.{refuted, too_many};
ghost use Rattle.linear_elim.specs.Joins.{Derived as DerivedValue};
ghost use Rattle.linear_elim.specs.internal.GatheredRows.{after_all};
ghost use Rattle.linear_elim.specs.internal.Outcomes.{outcome_of, gathering_of, IsSameShort};
ghost use Rattle.linear_rows.specs.Terms.{IsOver};

use crate::gathered_rows::Gathering;
use crate::joins::Derived;
use crate::steps::{After, Step, eliminate_one};
use crate::undominated_rows::lack_signs;
use std::alloc::{AllocError, Global};

/// The outcome of an elimination: a contradiction; no row left after the given steps; more than
/// 4,096 rows, with the number of steps and of rows; or an overflow.
#[derive(Drop)]
pub enum Outcome {
    Refuted(Derived),
    Standing(Vec<Step>),
    TooMany(usize, usize),
    TooGreat,
}

/// An elimination: its outcome, and whether it is surely the same if dominated rows are left out.
#[derive(Drop)]
pub struct Run {
    pub end: Outcome,
    pub same: bool,
}

fn both(a: bool, b: bool) -> bool
    ensures { result ≡ (a && b) }
{
    a && b
}

/// Returns the outcome after `done` steps that leave `count` rows, more than 4,096, with the first
/// contradiction `found` among them.
fn ended(found: Option<Derived>, done: usize, count: usize) -> Outcome
    ensures found { (c : DerivedValue) → found ≡ Some c → outcome_of result ≡ refuted c }
    ensures many { found ≡ None → outcome_of result ≡ too_many done count }
{
    match found {
        Some(contradiction) => Outcome::Refuted(contradiction),
        None => Outcome::TooMany(done, count),
    }
}

/// Eliminates the variables of `order` from the rows `now`, after `done` steps.
pub fn eliminate_from(
    alloc: Global,
    order: &[u32],
    done: usize,
    mut steps: Vec<Step>,
    now: Gathering,
) -> Result<Run, AllocError>
    requires derived { All IsDerived now.rows.items }
    requires over { All (λ r. IsOver order.now r.row.terms) now.rows.items }
    requires few { done + length order.now < 2 ^ 63 }
    ensures end { IfOk result
        (λ r. outcome_of r.end
        ≡ after_all steps.items (run keeps done order.now (gathering_of now))) }
    ensures same { IfOk result (λ r. r.same ≡ true → IsSameShort order.now now) }
{
    let Gathering {
        found,
        rows,
        places,
    } = now;
    drop(places);
    if let Some(contradiction) = found {
        return Ok(Run {
            end: Outcome::Refuted(contradiction),
            same: true,
        });
    }
    let signless = lack_signs(&rows);
    let count = rows.len();
    if count > 4096 {
        return Ok(Run {
            end: Outcome::TooMany(done, count),
            same: signless,
        });
    }
    let Some((&x, rest)) = order.split_first() else {
        return Ok(Run {
            end: Outcome::Standing(steps),
            same: signless,
        });
    };
    match eliminate_one(alloc, rows, x, rest, false)? {
        After::Great => Ok(Run {
            end: Outcome::TooGreat,
            same: signless,
        }),
        After::Many(found, count, signless_after) => Ok(Run {
            end: ended(found, done + 1, count),
            same: both(signless, signless_after),
        }),
        After::Few(step, next) => {
            steps.push(step)?;
            let Run { end, same } = eliminate_from(alloc, rest, done + 1, steps, next)?;
            Ok(Run {
                end,
                same: both(signless, same),
            })
        }
    }
}
