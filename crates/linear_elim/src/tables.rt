//! A table of different lists of terms. It stores the rows from which they come, not the terms.
ghost use Rattle.std.specs.Prelude.{◌≡◌, ◌<◌, ◌+◌, [], ℕ, List, ℤ, set, true, IfOk, IfSome, length};
ghost use Rattle.std.specs.List.{All};
ghost use Rattle.linear_elim.specs.Joins.{is_below_zero, is_above_zero, join};
ghost use Rattle.linear_rows.specs.SameTerms.{same_terms};
ghost use Rattle.linear_elim.specs.internal.CountedRows.{terms_at, home, print_of, IsSplit};
ghost use Rattle.linear_elim.specs.internal.CountedRows.{IsTable, IsPlaceOf, Puts, Lacks};
ghost use Rattle.linear_elim.specs.internal.DerivedRows.{IsDerived};
ghost use Rattle.linear_elim.specs.internal.Fingerprints.{fingerprint};
ghost use Rattle.linear_elim.specs.internal.Signless.{sign_terms};
ghost use Rattle.linear_rows.specs.Terms.{coefficient};
ghost use Rattle.linear_elim.specs.declared.tables.Name.{Name as NameValue};

use crate::fingerprints::hashed;
use crate::join_numbers::with_term;
use crate::joins::{Derived, joined};
use crate::small_joins::{is_small, join_terms};
use crate::steps::Step;
use linear_rows::have_same_terms;
use std::alloc::{AllocError, Global};

/// The name of a list of terms: the numbers of a lower and an upper row, for their combination. If
/// `low` is not the number of a lower row, `up` is the number of a kept row.
#[derive(Clone, Copy)]
pub(crate) struct Name {
    pub(crate) low: u16,
    pub(crate) up: u16,
}

/// A hash table with open addressing. `prints` has a part of the fingerprint at each used place,
/// and 0 at an empty one; `names` has the names. Fingerprints are spread over `places` places, and
/// `count` places are used.
#[derive(Drop)]
pub(crate) struct Table {
    pub(crate) prints: Vec<u16>,
    pub(crate) names: Vec<Name>,
    pub(crate) places: u64,
    pub(crate) count: usize,
}

/// The result of a search in a table: the terms are there; or they may be put at the empty place,
/// with the part of their fingerprint; or nothing is known.
pub(crate) enum Place {
    Taken,
    Free(usize, u16),
    Unknown,
}

fn print_of(number: u64) -> u16
    ensures { result ≡ print_of number }
{
    (number % 65535 + 1) as u16
}

/// Returns the first place to try for a fingerprint.
#[tactic(auto, unfolding(crate::specs::internal::CountedRows::home))]
fn home_of(places: u64, number: u64) -> usize
    ensures { result ≡ home places number }
{
    let spread = u128::from(hashed(number, 0)) * u128::from(places);
    (spread / (1 << 64)) as usize
}

/// Returns the terms of a combination, or None if it overflows.
fn terms_of_join(
    alloc: Global,
    x: u32,
    low: &Derived,
    up: &Derived,
) -> Result<Option<Vec<(u32, i64)>>, AllocError>
    requires low_derived { IsDerived low.now }
    requires up_derived { IsDerived up.now }
    requires lower { is_below_zero (coefficient x low.now.row.terms) ≡ true }
    requires upper { is_above_zero (coefficient x up.now.row.terms) ≡ true }
    ensures { IfOk result (λ o. IfSome o (λ ts. ts.items ≡ (join x low.now up.now).row.terms)) }
{
    if is_small(low) && is_small(up) {
        let mut terms: Vec<(u32, i64)> = Vec::new(alloc);
        if join_terms(x, low, up, &mut terms)? {
            return Ok(Some(terms));
        }
    }
    let Some(derived) = joined(alloc, low, up, x)? else {
        return Ok(None);
    };
    let Derived { row, .. } = derived;
    Ok(Some(row.terms))
}

/// Returns the terms with the given name, or None if there are none.
fn named(
    alloc: Global,
    step: &Step,
    kept: &[Derived],
    name: Name,
) -> Result<Option<Vec<(u32, i64)>>, AllocError>
    requires { IsSplit step.now }
    ensures { IfOk result (λ o. IfSome o (λ ts. ts.items ≡ terms_at step.now kept.now name)) }
{
    let lows: &[Derived] = &step.lows;
    let ups: &[Derived] = &step.ups;
    let i = usize::from(name.low);
    let j = usize::from(name.up);
    if i < lows.len() {
        if j >= ups.len() {
            return Ok(None);
        }
        terms_of_join(alloc, step.var, &lows[i], &ups[j])
    } else {
        if j >= kept.len() {
            return Ok(None);
        }
        let derived = &kept[j];
        let row = &derived.row;
        Ok(Some(Vec::from_slice(alloc, &row.terms)?))
    }
}

/// Returns whether two names have the same terms, or None if that is not known. `terms` may give
/// those of `b`.
fn name_alike(
    alloc: Global,
    step: &Step,
    kept: &[Derived],
    a: Name,
    b: Name,
    terms: Option<&[(u32, i64)]>,
) -> Result<Option<bool>, AllocError>
    requires split { IsSplit step.now }
    requires terms { IfSome terms (λ ts. ts.now ≡ terms_at step.now kept.now b) }
    ensures { IfOk result (λ o.
        IfSome o (λ s.
        s ≡ same_terms (terms_at step.now kept.now a) (terms_at step.now kept.now b))) }
{
    let Some(first) = named(alloc, step, kept, a)? else {
        return Ok(None);
    };
    if let Some(given) = terms {
        return Ok(Some(have_same_terms(&first, given)));
    }
    let Some(second) = named(alloc, step, kept, b)? else {
        return Ok(None);
    };
    Ok(Some(have_same_terms(&first, &second)))
}

/// Searches the terms named `name`, with the fingerprint `number`, in the table. `terms` may give
/// them.
fn place_of(
    alloc: Global,
    step: &Step,
    kept: &[Derived],
    table: &Table,
    name: Name,
    number: u64,
    terms: Option<&[(u32, i64)]>,
) -> Result<Place, AllocError>
    requires split { IsSplit step.now }
    requires number { number ≡ fingerprint (terms_at step.now kept.now name) }
    requires terms { IfSome terms (λ ts. ts.now ≡ terms_at step.now kept.now name) }
    ensures { IfOk result (λ p.
        IsPlaceOf (terms_at step.now kept.now) table.now (terms_at step.now kept.now name) p) }
{
    let print = print_of(number);
    let prints: &[u16] = &table.prints;
    let names: &[Name] = &table.names;
    for place in home_of(table.places, number)..prints.len() {
        let found = prints[place];
        if found == 0 {
            if place >= names.len() {
                return Ok(Place::Unknown);
            }
            return Ok(Place::Free(place, print));
        }
        if found == print {
            if place >= names.len() {
                return Ok(Place::Unknown);
            }
            match name_alike(alloc, step, kept, names[place], name, terms)? {
                Some(true) => return Ok(Place::Taken),
                Some(false) => {}
                None => return Ok(Place::Unknown),
            }
        }
    }
    Ok(Place::Unknown)
}

impl Table {
    /// Returns an empty table for `room` lists of terms.
    pub(crate) fn new(alloc: Global, room: usize) -> Result<Table, AllocError>
        ensures { IfOk result (λ t. (f : NameValue → List (ℕ × ℤ)) → IsTable f t []) }
    {
        let places = room.saturating_add(room / 2).saturating_add(1);
        let more = places.saturating_add(4096);
        let mut prints: Vec<u16> = Vec::new(alloc);
        prints.resize(more, 0)?;
        let mut names: Vec<Name> = Vec::new(alloc);
        names.resize(more, Name { low: 0, up: 0 })?;
        Ok(Table {
            prints,
            names,
            places: places as u64,
            count: 0,
        })
    }

    /// Fills an empty place. Returns false if the count overflows.
    fn fill(&mut self, place: usize, print: u16, name: Name) -> bool
        requires within { place < length self.old.prints.items }
        requires named { place < length self.old.names.items }
        ensures prints { result ≡ true
            → self.new.prints.items ≡ set self.old.prints.items place print }
        ensures names { result ≡ true → self.new.names.items ≡ set self.old.names.items place name }
        ensures places { self.new.places ≡ self.old.places }
        ensures count { result ≡ true → self.new.count ≡ self.old.count + 1 }
    {
        let Some(count) = self.count.checked_add(1) else {
            return false;
        };
        self.prints[place] = print;
        self.names[place] = name;
        self.count = count;
        true
    }
}

fn sign_number(x: u32) -> u64
    ensures { result ≡ fingerprint (sign_terms x) }
{
    with_term(0, x, -1)
}

/// Returns true only if no terms with the fingerprint `number` are in the table.
fn lacks(table: &Table, number: u64) -> bool
    ensures { result ≡ true → (f : NameValue → List (ℕ × ℤ)) (t : List (ℕ × ℤ))
        → number ≡ fingerprint t → Lacks f table.now t }
{
    let print = print_of(number);
    let prints: &[u16] = &table.prints;
    let names: &[Name] = &table.names;
    for place in home_of(table.places, number)..prints.len() {
        let found = prints[place];
        if found == 0 {
            return place < names.len();
        }
        if found == print {
            return false;
        }
    }
    false
}

/// Returns true only if the terms of `-x <= 0` are in the table for none of `variables`.
pub(crate) fn lacks_signs(table: &Table, variables: &[u32]) -> bool
    ensures { result ≡ true → (f : NameValue → List (ℕ × ℤ))
        → All (λ x. Lacks f table.now (sign_terms x)) variables.now }
{
    for i in 0..variables.len() {
        let x = variables[i];
        if !lacks(table, sign_number(x)) {
            return false;
        }
    }
    true
}

/// Adds the terms named `name`, with the fingerprint `number`, unless they are there. `terms` may
/// give them. Returns false if nothing is known.
pub(crate) fn put(
    alloc: Global,
    step: &Step,
    kept: &[Derived],
    table: &mut Table,
    name: Name,
    number: u64,
    terms: Option<&[(u32, i64)]>,
) -> Result<bool, AllocError>
    requires split { IsSplit step.now }
    requires number { number ≡ fingerprint (terms_at step.now kept.now name) }
    requires terms { IfSome terms (λ ts. ts.now ≡ terms_at step.now kept.now name) }
    ensures { IfOk result (λ b. b ≡ true
        → Puts (terms_at step.now kept.now) table.old table.new (terms_at step.now kept.now name)) }
{
    match place_of(alloc, step, kept, table, name, number, terms)? {
        Place::Taken => Ok(true),
        Place::Free(place, print) => Ok(table.fill(place, print, name)),
        Place::Unknown => Ok(false),
    }
}
