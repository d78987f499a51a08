//! Counting the combinations of a step. Only the first contradiction is stored, and the number of
//! the others.
ghost use Rattle.std.specs.Prelude.{◌≡◌, ◌<◌, ◌∷◌, [], true, Some, IfOk, IfSome, length};
ghost use Rattle.std.specs.List.{All};
ghost use Rattle.linear_elim.specs.Joins.{join_fits};
ghost use Rattle.linear_elim.specs.Steps.{fits_each, pairs_fit, joins, pairs};
ghost use Rattle.linear_elim.specs.internal.CountedRows.{nth, terms_at, puts, all_terms, join_at};
ghost use Rattle.linear_elim.specs.internal.CountedRows.{AreDifferent, IsSplit, IsNumberOf};
ghost use Rattle.linear_elim.specs.internal.CountedRows.{AreNumbersOf, IsTable, IsCounted};
ghost use Rattle.linear_elim.specs.internal.CountedRows.{IsSignlessCount, Puts, Counts};
ghost use Rattle.linear_elim.specs.internal.Fingerprints.{fingerprint};
ghost use Rattle.linear_elim.specs.internal.GatheredRows.{found_after, found_all};
ghost use Rattle.linear_elim.specs.internal.SmallRows.{IsSmall};

use crate::fingerprints::fingerprint;
use crate::gathered_rows::{contradicts, has_no_terms};
use crate::join_numbers::join_number;
use crate::joins::{Derived, joined};
use crate::small_joins::both_small;
use crate::steps::Step;
use crate::tables::{Name, Table, lacks_signs, put};
use std::alloc::{AllocError, Global};

/// The result of counting the combinations of a step: an overflow; or the first contradiction, the
/// number of rows together with the kept ones, and whether surely none of these has the terms of
/// `-x <= 0`; or nothing.
pub(crate) enum Counted {
    Great,
    Rows(Option<Derived>, usize, bool),
    Uncounted,
}

/// The first contradiction so far, and the different terms of the other rows.
#[derive(Drop)]
struct Counting {
    found: Option<Derived>,
    table: Table,
}

/// Returns the name with the given numbers, or None if one has more than 16 bits.
fn name_of(i: usize, j: usize) -> Option<Name>
    ensures low { IfSome result (λ n. n.low ≡ i) }
    ensures up { IfSome result (λ n. n.up ≡ j) }
{
    if i >= 65536 {
        return None;
    }
    if j >= 65536 {
        return None;
    }
    Some(Name {
        low: i as u16,
        up: j as u16,
    })
}

/// Adds the terms of the kept rows. Returns false if that fails.
fn count_kept(
    alloc: Global,
    step: &Step,
    kept: &[Derived],
    table: &mut Table,
) -> Result<bool, AllocError>
    requires split { IsSplit step.now }
    requires empty { IsTable (terms_at step.now kept.now) table.old [] }
    ensures { IfOk result (λ b. b ≡ true
        → IsTable (terms_at step.now kept.now) table.new (puts (all_terms kept.now) [])) }
{
    let lows: &[Derived] = &step.lows;
    for k in 0..kept.len() {
        let Some(name) = name_of(lows.len(), k) else {
            return Ok(false);
        };
        let derived = &kept[k];
        let row = &derived.row;
        let terms: &[(u32, i64)] = &row.terms;
        let number = fingerprint(terms);
        if !put(alloc, step, kept, table, name, number, Some(terms))? {
            return Ok(false);
        }
    }
    Ok(true)
}

/// Adds the terms of a combination, with the fingerprint `number`; `terms` may give them. Returns
/// false if that fails.
fn put_join(
    alloc: Global,
    step: &Step,
    kept: &[Derived],
    i: usize,
    j: usize,
    number: u64,
    terms: Option<&[(u32, i64)]>,
    table: &mut Table,
) -> Result<bool, AllocError>
    requires split { IsSplit step.now }
    requires low_within { i < length step.now.lows }
    requires number { number ≡ fingerprint (join_at step.now i j).row.terms }
    requires terms { IfSome terms (λ ts. ts.now ≡ (join_at step.now i j).row.terms) }
    ensures { IfOk result (λ b. b ≡ true
        → Puts (terms_at step.now kept.now) table.old table.new (join_at step.now i j).row.terms) }
{
    let Some(name) = name_of(i, j) else {
        return Ok(false);
    };
    put(alloc, step, kept, table, name, number, terms)
}

/// Counts a combination. Returns whether it fits, or None if that is not known.
fn count_join(
    alloc: Global,
    step: &Step,
    kept: &[Derived],
    i: usize,
    j: usize,
    out: &mut Counting,
) -> Result<Option<bool>, AllocError>
    requires split { IsSplit step.now }
    requires low_within { i < length step.now.lows }
    requires up_within { j < length step.now.ups }
    ensures fits { IfOk result
        (λ o. IfSome o
        (λ b. b ≡ join_fits step.now.var (nth step.now.lows i) (nth step.now.ups j))) }
    ensures found { IfOk result (λ o. o ≡ Some true
        → out.new.found ≡ found_after (join_at step.now i j) out.old.found) }
    ensures table { IfOk result (λ o. o ≡ Some true
        → Counts (terms_at step.now kept.now) out.old.table out.new.table
        (join_at step.now i j ∷ [])) }
{
    let lows: &[Derived] = &step.lows;
    let ups: &[Derived] = &step.ups;
    let Some(derived) = joined(alloc, &lows[i], &ups[j], step.var)? else {
        return Ok(Some(false));
    };
    if has_no_terms(&derived) {
        if out.found.is_none() && contradicts(&derived) {
            out.found = Some(derived);
        }
        return Ok(Some(true));
    }
    let row = &derived.row;
    let terms: &[(u32, i64)] = &row.terms;
    let number = fingerprint(terms);
    if put_join(alloc, step, kept, i, j, number, Some(terms), &mut out.table)? {
        Ok(Some(true))
    } else {
        Ok(None)
    }
}

/// Counts a combination, with the fingerprint `number` unless that is 0. Returns whether it fits,
/// or None if that is not known.
fn count_pair(
    alloc: Global,
    step: &Step,
    kept: &[Derived],
    i: usize,
    j: usize,
    number: u64,
    out: &mut Counting,
) -> Result<Option<bool>, AllocError>
    requires split { IsSplit step.now }
    requires low_within { i < length step.now.lows }
    requires up_within { j < length step.now.ups }
    requires number { IsNumberOf number step.now i j }
    ensures fits { IfOk result
        (λ o. IfSome o
        (λ b. b ≡ join_fits step.now.var (nth step.now.lows i) (nth step.now.ups j))) }
    ensures found { IfOk result (λ o. o ≡ Some true
        → out.new.found ≡ found_after (join_at step.now i j) out.old.found) }
    ensures table { IfOk result (λ o. o ≡ Some true
        → Counts (terms_at step.now kept.now) out.old.table out.new.table
        (join_at step.now i j ∷ [])) }
{
    if number == 0 {
        return count_join(alloc, step, kept, i, j, out);
    }
    if put_join(alloc, step, kept, i, j, number, None, &mut out.table)? {
        Ok(Some(true))
    } else {
        Ok(None)
    }
}

/// Returns the fingerprint of a combination of rows with small numbers, or 0 if it is not known, or
/// not known that the combination fits.
fn number_at(step: &Step, i: usize, j: usize, small: bool) -> u64
    requires split { IsSplit step.now }
    requires low_within { i < length step.now.lows }
    requires up_within { j < length step.now.ups }
    requires small { small ≡ true → (All IsSmall step.now.lows) × (All IsSmall step.now.ups) }
    ensures { IsNumberOf result step.now i j }
{
    if !small {
        return 0;
    }
    let lows: &[Derived] = &step.lows;
    let ups: &[Derived] = &step.ups;
    join_number(step.var, &lows[i], &ups[j])
}

/// Writes the fingerprints of the combinations of a lower row, 0 for those that are not known.
fn write_numbers(
    step: &Step,
    i: usize,
    small: bool,
    numbers: &mut Vec<u64>,
) -> Result<(), AllocError>
    requires split { IsSplit step.now }
    requires low_within { i < length step.now.lows }
    requires small { small ≡ true → (All IsSmall step.now.lows) × (All IsSmall step.now.ups) }
    ensures { IfOk result (λ _. AreNumbersOf numbers.new.items step.now i) }
{
    numbers.clear();
    let ups: &[Derived] = &step.ups;
    for j in 0..ups.len() {
        let number = number_at(step, i, j, small);
        numbers.push(number)?;
    }
    Ok(())
}

/// Counts the combinations of a lower row, with the given fingerprints. Returns whether they fit,
/// or None if that is not known.
fn count_low(
    alloc: Global,
    step: &Step,
    kept: &[Derived],
    i: usize,
    numbers: &[u64],
    out: &mut Counting,
) -> Result<Option<bool>, AllocError>
    requires split { IsSplit step.now }
    requires low_within { i < length step.now.lows }
    requires numbers { AreNumbersOf numbers.now step.now i }
    ensures fits { IfOk result
        (λ o. IfSome o (λ b. b ≡ fits_each step.now.var (nth step.now.lows i) step.now.ups)) }
    ensures found { IfOk result (λ o. o ≡ Some true
        → out.new.found
        ≡ found_all (joins step.now.var (nth step.now.lows i) step.now.ups) out.old.found) }
    ensures table { IfOk result (λ o. o ≡ Some true
        → Counts (terms_at step.now kept.now) out.old.table out.new.table
        (joins step.now.var (nth step.now.lows i) step.now.ups)) }
{
    for j in 0..numbers.len() {
        match count_pair(alloc, step, kept, i, j, numbers[j], out)? {
            Some(true) => {}
            Some(false) => return Ok(Some(false)),
            None => return Ok(None),
        }
    }
    Ok(Some(true))
}

/// Counts all combinations. Returns whether they fit, or None if that is not known.
fn count_all(
    alloc: Global,
    step: &Step,
    kept: &[Derived],
    small: bool,
    out: &mut Counting,
) -> Result<Option<bool>, AllocError>
    requires split { IsSplit step.now }
    requires small { small ≡ true → (All IsSmall step.now.lows) × (All IsSmall step.now.ups) }
    ensures fits { IfOk result
        (λ o. IfSome o (λ b. b ≡ pairs_fit step.now.var step.now.lows step.now.ups)) }
    ensures found { IfOk result (λ o. o ≡ Some true
        → out.new.found ≡ found_all (pairs step.now.var step.now.lows step.now.ups) out.old.found) }
    ensures table { IfOk result (λ o. o ≡ Some true
        → Counts (terms_at step.now kept.now) out.old.table out.new.table
        (pairs step.now.var step.now.lows step.now.ups)) }
{
    let lows: &[Derived] = &step.lows;
    let mut numbers: Vec<u64> = Vec::new(alloc);
    for i in 0..lows.len() {
        write_numbers(step, i, small, &mut numbers)?;
        match count_low(alloc, step, kept, i, &numbers, out)? {
            Some(true) => {}
            Some(false) => return Ok(Some(false)),
            None => return Ok(None),
        }
    }
    Ok(Some(true))
}

/// Counts the combinations of the lower rows of `step` with its upper rows, together with the rows
/// `kept`. Sign rows are searched for the variables `later`.
pub(crate) fn count_rows(
    alloc: Global,
    step: &Step,
    kept: &[Derived],
    later: &[u32],
) -> Result<Counted, AllocError>
    requires split { IsSplit step.now }
    requires different { AreDifferent kept.now }
    ensures counted { IfOk result
        (λ o. IsCounted step.now.var step.now.lows step.now.ups kept.now o) }
    ensures signless { IfOk result
        (λ o. IsSignlessCount later.now step.now.var step.now.lows step.now.ups kept.now o) }
{
    let lows: &[Derived] = &step.lows;
    let ups: &[Derived] = &step.ups;
    let joins = lows.len().saturating_mul(ups.len());
    let mut table = Table::new(alloc, joins.saturating_add(kept.len()))?;
    if !count_kept(alloc, step, kept, &mut table)? {
        return Ok(Counted::Uncounted);
    }
    let small = both_small(lows, ups);
    let mut out = Counting { found: None, table };
    match count_all(alloc, step, kept, small, &mut out)? {
        Some(true) => {
            let Counting { found, table } = out;
            let signless = lacks_signs(&table, later);
            Ok(Counted::Rows(found, table.count, signless))
        }
        Some(false) => Ok(Counted::Great),
        None => Ok(Counted::Uncounted),
    }
}
