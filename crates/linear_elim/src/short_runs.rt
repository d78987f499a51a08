//! The elimination in which dominated rows are left out.
ghost use Rattle.std.specs.Prelude.{◌≡◌, ◌<◌, ◌^◌, ℕ, length, Some, None, IfOk};
ghost use Rattle.std.specs.List.{All};
ghost use Rattle.linear_rows.specs.Row.{IsRow};
ghost use Rattle.linear_rows.specs.Terms.{IsOver};
ghost use Rattle.linear_elim.specs.Joins.{Derived as DerivedValue};
ghost use Rattle.linear_elim.specs.Elimination.{run, Outcome, elimination_by};
ghost use Rattle.linear_elim.specs.Elimination.Outcome.{refuted};
ghost use Rattle.linear_elim.specs.Elimination.Rule.{drops};
ghost use Rattle.linear_elim.specs.internal.DerivedRows.{IsDerived};
ghost use Rattle.linear_elim.specs.internal.GatheredRows.{after_all};
ghost use Rattle.linear_elim.specs.internal.Outcomes.{short_gathering, IsLimited, IsShort};

use crate::gathered_rows::Gathering;
use crate::joins::Derived;
use crate::starts::first_rows;
use crate::steps::{After, Step, eliminate_one};
use crate::undominated_rows::without_dominated;
use linear_rows::Row;
use std::alloc::{AllocError, Global};

/// The outcome of an elimination without dominated rows: a contradiction; no row left after the
/// given steps; or a limit.
#[derive(Drop)]
pub enum Short {
    Refuted(Derived),
    Standing(Vec<Step>),
    Limited,
}

/// Returns the outcome if more than 4,096 rows are left, with the first contradiction `found` among
/// them.
fn ended(found: Option<Derived>) -> Short
    ensures found { (c : DerivedValue) (o : Outcome) → found ≡ Some c → refuted c ≡ o
        → IsShort result o }
    ensures many { (o : Outcome) → found ≡ None → IsLimited o → IsShort result o }
{
    match found {
        Some(contradiction) => Short::Refuted(contradiction),
        None => Short::Limited,
    }
}

/// Eliminates the variables of `order` from the rows `now`. Dominated rows are left out before each
/// step.
fn shorten_from(
    alloc: Global,
    order: &[u32],
    mut steps: Vec<Step>,
    now: Gathering,
) -> Result<Short, AllocError>
    requires derived { All IsDerived now.rows.items }
    requires over { All (λ r. IsOver order.now r.row.terms) now.rows.items }
    ensures { IfOk result (λ o. (n : ℕ)
        → IsShort o (after_all steps.items (run drops n order.now (short_gathering now)))) }
{
    let Gathering {
        found,
        rows,
        places,
    } = now;
    drop(places);
    if let Some(contradiction) = found {
        return Ok(Short::Refuted(contradiction));
    }
    let Some(rows) = without_dominated(alloc, rows)? else {
        return Ok(Short::Limited);
    };
    let Some((&x, rest)) = order.split_first() else {
        return Ok(Short::Standing(steps));
    };
    match eliminate_one(alloc, rows, x, rest, true)? {
        After::Great => Ok(Short::Limited),
        After::Many(found, _, _) => Ok(ended(found)),
        After::Few(step, next) => {
            steps.push(step)?;
            shorten_from(alloc, rest, steps, next)
        }
    }
}

/// Eliminates the variables of `rows` in `order`, without dominated rows.
pub fn short_steps(alloc: Global, rows: &[Row], order: &[u32]) -> Result<Short, AllocError>
    requires rows { All IsRow rows.now }
    requires few { length rows.now < 2 ^ 32 }
    requires over { All (λ r. IsOver order.now r.terms) rows.now }
    ensures { IfOk result (λ o. IsShort o (elimination_by drops order.now rows.now)) }
{
    let start = first_rows(alloc, rows)?;
    shorten_from(alloc, order, Vec::new(alloc), start)
}
