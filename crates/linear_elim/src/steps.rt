//! One step of elimination.
ghost use Rattle.std.specs.Prelude.{◌≡◌, [], true, false, IfOk};
ghost use Rattle.std.specs.List.{All};
ghost use Rattle.linear_rows.specs.Terms.{coefficient};
ghost use Rattle.linear_elim.specs.Joins.{is_below_zero, is_above_zero};
ghost use Rattle.linear_elim.specs.internal.Afters.{IsAfter};
ghost use Rattle.linear_elim.specs.internal.Signless.{IsSignlessAfter, IsSignlessMany};
ghost use Rattle.linear_elim.specs.internal.DerivedRows.{IsDerived};
ghost use Rattle.linear_elim.specs.Steps.{lowers, uppers, kept, fits_each, pairs_fit, joins, pairs};
ghost use Rattle.linear_elim.specs.internal.Fingerprints.{ArePlaces};
ghost use Rattle.linear_elim.specs.internal.GatheredRows.{found_all, rows_all};

use crate::gathered_rows::Gathering;
use crate::join_counts::{Counted, count_rows};
use crate::joins::{Derived, joined};
use linear_rows::coefficient_of;
use std::alloc::{AllocError, Global};
use std::marker::Model;

/// A variable, and the rows that bound it from below and from above before its step.
#[derive(Drop)]
pub struct Step {
    pub var: u32,
    pub lows: Vec<Derived>,
    pub ups: Vec<Derived>,
}

impl Model for Step {
    ghost use Rattle.linear_elim.specs.Elimination.{Step as StepValue};

    ghost Value = { StepValue };

    ghost view = { λ s. record { var = s.var; lows = s.lows.items; ups = s.ups.items } };
}

/// Adds the combinations of `low`, which bounds `x` from below, with each of `ups`, which bound it
/// from above. Returns false if one of them overflows.
fn join_each(
    alloc: Global,
    x: u32,
    low: &Derived,
    ups: &[Derived],
    out: &mut Gathering,
) -> Result<bool, AllocError>
    requires low_derived { IsDerived low.now }
    requires ups_derived { All IsDerived ups.now }
    requires places { ArePlaces out.old.places out.old.rows.items }
    requires lower { is_below_zero (coefficient x low.now.row.terms) ≡ true }
    requires upper { All (λ u. is_above_zero (coefficient x u.row.terms) ≡ true) ups.now }
    ensures fits { IfOk result (λ b. b ≡ fits_each x low.now ups.now) }
    ensures found { IfOk result (λ b. b ≡ true
        → out.new.found ≡ found_all (joins x low.now ups.now) out.old.found) }
    ensures rows { IfOk result (λ b. b ≡ true
        → out.new.rows.items ≡ rows_all (joins x low.now ups.now) out.old.rows.items) }
    ensures places { IfOk result (λ _. ArePlaces out.new.places out.new.rows.items) }
{
    for up in ups {
        let Some(derived) = joined(alloc, low, up, x)? else {
            return Ok(false);
        };
        out.put(derived)?;
    }
    Ok(true)
}

/// Adds the combinations of each of `lows` with each of `ups`. Returns false if one of them
/// overflows.
fn join_all(
    alloc: Global,
    x: u32,
    lows: &[Derived],
    ups: &[Derived],
    out: &mut Gathering,
) -> Result<bool, AllocError>
    requires lows_derived { All IsDerived lows.now }
    requires ups_derived { All IsDerived ups.now }
    requires places { ArePlaces out.old.places out.old.rows.items }
    requires lower { All (λ l. is_below_zero (coefficient x l.row.terms) ≡ true) lows.now }
    requires upper { All (λ u. is_above_zero (coefficient x u.row.terms) ≡ true) ups.now }
    ensures fits { IfOk result (λ b. b ≡ pairs_fit x lows.now ups.now) }
    ensures found { IfOk result (λ b. b ≡ true
        → out.new.found ≡ found_all (pairs x lows.now ups.now) out.old.found) }
    ensures rows { IfOk result (λ b. b ≡ true
        → out.new.rows.items ≡ rows_all (pairs x lows.now ups.now) out.old.rows.items) }
{
    for low in lows {
        if !join_each(alloc, x, low, ups, out)? {
            return Ok(false);
        }
    }
    Ok(true)
}

fn coefficient_in(r: &Derived, x: u32) -> i64
    requires { IsDerived r.now }
    ensures { result ≡ coefficient x r.now.row.terms }
{
    let row = &r.row;
    coefficient_of(&row.terms, x)
}

/// The rows that bound a variable from below, those that bound it from above, and the others,
/// tidied.
#[derive(Drop)]
struct Split {
    lows: Vec<Derived>,
    ups: Vec<Derived>,
    rest: Gathering,
}

/// Splits `rows` by the sign of the coefficient of `x`.
fn split_by(alloc: Global, rows: Vec<Derived>, x: u32) -> Result<Split, AllocError>
    requires { All IsDerived rows.items }
    ensures lows { IfOk result (λ p. p.lows.items ≡ lowers x rows.items) }
    ensures ups { IfOk result (λ p. p.ups.items ≡ uppers x rows.items) }
    ensures found { IfOk result (λ p. p.rest.found ≡ found_all (kept x rows.items) None) }
    ensures rest { IfOk result (λ p. p.rest.rows.items ≡ rows_all (kept x rows.items) []) }
    ensures places { IfOk result (λ p. ArePlaces p.rest.places p.rest.rows.items) }
{
    let mut lows: Vec<Derived> = Vec::new(alloc);
    let mut ups: Vec<Derived> = Vec::new(alloc);
    let mut rest = Gathering::new(alloc);
    for r in rows {
        let c = coefficient_in(&r, x);
        if c < 0 {
            lows.push(r)?;
        } else if c > 0 {
            ups.push(r)?;
        } else {
            rest.put(r)?;
        }
    }
    Ok(Split { lows, ups, rest })
}

/// The result of a step: an overflow; the rows that bound the variable, and the rows after the
/// step; or, if these are more than 4,096, the first contradiction, their number, and whether
/// surely none of them has the terms of `-x <= 0`.
pub enum After {
    Great,
    Few(Step, Gathering),
    Many(Option<Derived>, usize, bool),
}

/// Returns whether the combinations are so many that they are counted before they are stored.
fn have_many(lows: usize, ups: usize) -> bool {
    lows.saturating_mul(ups) > 32768
}

/// Eliminates `x`, before the variables `later`. If there are many combinations, they are counted
/// first. They are stored if few of them are different, or if `drops` is set and some may be
/// dominated.
pub fn eliminate_one(
    alloc: Global,
    rows: Vec<Derived>,
    x: u32,
    later: &[u32],
    drops: bool,
) -> Result<After, AllocError>
    requires { All IsDerived rows.items }
    ensures after { IfOk result (λ o. IsAfter x rows.items o) }
    ensures signless { IfOk result (λ o. IsSignlessAfter later.now x rows.items o) }
    ensures many { IfOk result (λ o. drops ≡ true → IsSignlessMany o) }
{
    let Split {
        lows,
        ups,
        mut rest,
    } = split_by(alloc, rows, x)?;
    let step = Step { var: x, lows, ups };
    if rest.found.is_none() && have_many(step.lows.len(), step.ups.len()) {
        match count_rows(alloc, &step, &rest.rows, later)? {
            Counted::Great => return Ok(After::Great),
            Counted::Rows(found, count, signless) => {
                if count > 4096 && (signless || !drops) {
                    return Ok(After::Many(found, count, signless));
                }
            }
            Counted::Uncounted => {}
        }
    }
    if join_all(alloc, x, &step.lows, &step.ups, &mut rest)? {
        Ok(After::Few(step, rest))
    } else {
        Ok(After::Great)
    }
}
