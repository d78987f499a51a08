//! The comparisons of numbers that a walk has asked.

ghost use Rattle.std.specs.Prelude.{◌≡◌, [], List, true, false, IfOk, IfSome};
ghost use Rattle.heylo_formula.specs.declared.types.Ty.{Ty as PlainTy};
ghost use Rattle.linear_form.specs.PlainPaths.{atom_of};
ghost use Rattle.linear_form.specs.Query.{Atom as PlainAtom};
ghost use Rattle.region_split.specs.internal.KnownComparisons.{AreKnown, IsNumber, IsRecalled};
ghost use Rattle.region_split.specs.internal.KnownComparisons.{IsRowOf};

use crate::answer_rows::AnswerRows;
use crate::known_comparisons::{Known, Recalled, answer, asks, make_known, row_of};
use heyvl_num::Frac;
use indexmap::IndexMap;
use linear_form::{Atom, Taken};
use linear_rows::Row;
use linear_values::Lin;
use std::alloc::{AllocError, Global};
use std::marker::Model;

/// The comparisons that a walk has asked, with the rows of both answers. Each keeps its number.
#[derive(Drop)]
pub struct Atoms {
    known: Vec<Known>,
    /// By the number of the first comparison with the same row: the index of this row on a path.
    /// The path may be an earlier one, so the row at this index is compared.
    indexes: Vec<usize>,
    /// By fingerprint: the number of the first comparison with this fingerprint, or with a row that
    /// has it. No clause depends on this map: its results are compared.
    numbers: IndexMap<u64, usize>,
}

impl Model for Atoms {
    ghost use Rattle.std.specs.Prelude.{List};
    ghost use Rattle.region_split.specs.declared.known_comparisons.Known.{Known as KnownValue};

    ghost Value = { List KnownValue };

    ghost view = { λ a. a.known.items };
}

/// An odd number with irregular bits: 2^64 divided by the golden ratio.
const MULTIPLIER: u64 = 0x9e37_79b9_7f4a_7c15;

fn mixed(number: u64, next: u64) -> u64 {
    let product = (number ^ next).wrapping_mul(MULTIPLIER);
    product ^ (product >> 32)
}

fn with_wide(number: u64, next: u128) -> u64 {
    let halves = (next ^ (next >> 64)) % (1 << 64);
    mixed(number, halves as u64)
}

fn with_fraction(number: u64, fraction: &Frac) -> u64 {
    let half = with_wide(number, fraction.num().cast_unsigned());
    with_wide(half, fraction.den().cast_unsigned())
}

/// Returns the fingerprint of a comparison: equal comparisons have equal fingerprints, and
/// different ones rarely do.
fn of_value(left: &Lin, strict: bool) -> u64 {
    let mut found = with_fraction(u64::from(strict), &left.rest);
    for term in &left.terms {
        found = with_fraction(mixed(found, u64::from(term.0)), &term.1);
    }
    found
}

fn of_row(row: &Row) -> u64 {
    let mut found = mixed(u64::from(row.strict), row.rest.cast_unsigned());
    for term in &row.terms {
        let weight = term.1.cast_unsigned();
        found = mixed(mixed(found, u64::from(term.0)), weight);
    }
    found
}

impl Atoms {
    /// Returns an empty table.
    pub fn new(alloc: Global) -> Atoms
        ensures { result ≡ [] }
    {
        Atoms {
            known: Vec::new(alloc),
            indexes: Vec::new(alloc),
            numbers: IndexMap::new(alloc),
        }
    }

    /// Returns the number of the comparison `atom`, if the walk has asked it.
    pub fn find(&self, atom: &Atom) -> Option<usize>
        ensures { IfSome result (IsNumber self.now (atom_of atom.now)) }
    {
        let Atom::Row(left, strict) = atom else {
            return None;
        };
        let number = *self.numbers.get(&of_value(left, *strict))?;
        if asks(self.known.get(number)?, atom) {
            Some(number)
        } else {
            None
        }
    }

    /// Returns the row of `answer`, if the walk has asked its comparison.
    pub fn row_of(&self, answer: &Taken) -> Option<&Row>
        ensures { (types : List PlainTy) → AreKnown types self.now
            → IfSome result (λ r. IsRowOf types (atom_of answer.now.atom) answer.now.held r.now) }
    {
        let number = self.find(&answer.atom)?;
        Some(row_of(self.known.get(number)?, answer.held))
    }

    /// Adds the comparison `atom` with the rows of both answers, and returns its number, or None if
    /// it is not proved that the rows exclude each other.
    pub fn add(
        &mut self,
        alloc: Global,
        atom: &Atom,
        rows: AnswerRows,
    ) -> Result<Option<usize>, AllocError>
        ensures known { (types : List PlainTy) → AreKnown types self.old
            → IsRowOf types (atom_of atom.now) true rows.yes
            → IsRowOf types (atom_of atom.now) false rows.no
            → IfOk result (λ _. AreKnown types self.new) }
        ensures number { IfOk result (λ n. IfSome n (IsNumber self.new (atom_of atom.now))) }
    {
        let number = self.known.len();
        let first = self
            .numbers
            .get(&of_row(&rows.yes))
            .copied()
            .unwrap_or(number);
        let Some(known) = make_known(alloc, atom, rows, first)? else {
            return Ok(None);
        };
        self.numbers
            .insert(of_value(&known.left, known.strict), number)?;
        self.numbers.insert(of_row(&known.yes), first)?;
        self.numbers.insert(of_row(&known.no), first)?;
        self.known.push(known)?;
        self.indexes.push(0)?;
        Ok(Some(number))
    }

    /// Returns the answer that a path with the rows `rows` has given to comparison `number`. If it
    /// has given none, records that the row of its next answer will be after `rows`.
    pub fn recall(&mut self, number: usize, rows: &[Row]) -> Option<Recalled>
        ensures known { (types : List PlainTy) → AreKnown types self.old → AreKnown types self.new }
        ensures recalled { (types : List PlainTy) (q : PlainAtom) → AreKnown types self.old
            → IsNumber self.old q number → IfSome result (IsRecalled types rows.now q) }
    {
        let known = self.known.get(number)?;
        let index = self.indexes.get_mut(known.first)?;
        let recalled = answer(known, rows, *index);
        if recalled.is_none() {
            *index = rows.len();
        }
        recalled
    }
}
