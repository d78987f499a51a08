//! The lines of a text of certificates.

ghost use Rattle.std.specs.Prelude.{◌≡◌, ℕ, ℤ, ◌<◌, ◌≤◌, ◌^◌, ◌++◌, ◌∷◌, List, decimal, IfOk};
ghost use Rattle.std.specs.Prelude.{IfSome, IsSomeAnd, Some, length};
ghost use Rattle.std.specs.Fmt.{signed_decimal};
ghost use Rattle.std.specs.Option.{option_map};
ghost use Rattle.heylo_formula.specs.declared.goals.GoalId.{GoalId as GoalIdValue};
ghost use Rattle.cert_text.specs.declared.goal_names.GoalName.{GoalName as GoalNameValue};
ghost use Rattle.heylo_formula.specs.GoalOrder.{loop_of};
ghost use Rattle.cert_text.specs.Certificates.{IsNumbered, IsWholeSplit, AreMultipliers};
ghost use Rattle.cert_text.specs.Lines.{Line as LineValue, id_text, line_text, multiplier_text};
ghost use Rattle.cert_text.specs.Lines.{multipliers_text};
ghost use Rattle.cert_text.specs.internal.WholeLines.{IsLine};
ghost use Rattle.cert_text.specs.internal.ReadStates.{line_of, IsMultiplier, IsBareLine};

use crate::goal_names::GoalName;
use crate::numbers::{number, short_number, signed_number};
use crate::versions::Version;
use crate::words::cut;
use heylo_formula::GoalId;
use std::alloc::{AllocError, Global};

/// A line of a text of certificates.
#[derive(Drop)]
pub enum Line {
    Title(Version),
    Goal(GoalName),
    Split,
    Whole(u32, i64),
    Farkas(Vec<(u32, u64)>),
    Plain,
    Last,
}

/// Returns the goal of a procedure that has this text.
fn goal_id(text: &[u8]) -> Option<GoalId>
    ensures found { IfSome result (λ id. (loop_of id < 2 ^ 32) × (text.now ≡ id_text id)) }
    ensures only { (id : GoalIdValue) → loop_of id < 2 ^ 32 → text.now ≡ id_text id
        → result ≡ Some id }
{
    if text == b"main".as_slice() {
        Some(GoalId::Main)
    } else if text == b"pre".as_slice() {
        Some(GoalId::Pre)
    } else if text == b"post".as_slice() {
        Some(GoalId::Post)
    } else if let Some(digits) = text.strip_prefix(b"invariant ".as_slice()) {
        Some(GoalId::Invariant(short_number(digits)?))
    } else if let Some(digits) = text.strip_prefix(b"ranking ".as_slice()) {
        Some(GoalId::Ranking(short_number(digits)?))
    } else {
        None
    }
}

/// Returns the goal of a file that has this text.
fn goal_name(text: &[u8]) -> Option<GoalName>
    ensures found { IfSome result (λ n. IsNumbered n
        × (text.now ≡ decimal n.proc ++ 32 ∷ id_text n.id)) }
    ensures only { (n : GoalNameValue) → IsNumbered n
        → text.now ≡ decimal n.proc ++ 32 ∷ id_text n.id → result ≡ Some n }
{
    let (digits, rest) = cut(text, b' ');
    let (_, id) = rest.split_first()?;
    Some(GoalName {
        proc: short_number(digits)?,
        id: goal_id(id)?,
    })
}

/// Returns the integer split that has this text: its variable, and its number.
fn whole_split(text: &[u8]) -> Option<(u32, i64)>
    ensures found { IfSome result (λ s. IsWholeSplit s.0 s.1
        × (text.now ≡ decimal s.0 ++ 32 ∷ signed_decimal s.1)) }
    ensures only { (x : ℕ) (m : ℤ) → IsWholeSplit x m
        → text.now ≡ decimal x ++ 32 ∷ signed_decimal m → result ≡ Some (x, m) }
{
    let (variable, rest) = cut(text, b' ');
    let (_, digits) = rest.split_first()?;
    let variable = short_number(variable)?;
    let bound = signed_number(digits)?;
    if bound.unsigned_abs() < 0x4000_0000_0000_0000 {
        Some((variable, bound))
    } else {
        None
    }
}

/// Returns the row index and the multiplier that have this text.
fn multiplier(text: &[u8]) -> Option<(u32, u64)>
    ensures found { IfSome result (λ m. IsMultiplier m
        × (text.now ≡ decimal m.0 ++ 58 ∷ decimal m.1)) }
    ensures only { (m : ℕ × ℕ) → IsMultiplier m → text.now ≡ decimal m.0 ++ 58 ∷ decimal m.1
        → result ≡ Some m }
{
    let (index, rest) = cut(text, b':');
    let (_, digits) = rest.split_first()?;
    let index = short_number(index)?;
    let multiplier = number(digits)?;
    if 0 < multiplier && multiplier < 0x4000_0000_0000_0000 {
        Some((index, multiplier))
    } else {
        None
    }
}

/// Splits a text into its first multiplier, with a space before it, and the rest. Returns `None` if
/// the row index is less than `least`.
fn first_multiplier(text: &[u8], least: u64) -> Option<((u32, u64), &[u8])>
    ensures found { IfSome result (λ r. IsMultiplier r.0 × (least ≤ r.0.0)
        × (text.now ≡ multiplier_text r.0 ++ r.1.now)) }
    ensures only { (m : ℕ × ℕ) (ms : List (ℕ × ℕ)) → IsMultiplier m → least ≤ m.0
        → text.now ≡ multipliers_text (m ∷ ms)
        → IsSomeAnd result (λ r. (r.0 ≡ m) × (r.1.now ≡ multipliers_text ms)) }
    ensures shorter { IfSome result (λ r. length r.1.now < length text.now) }
{
    let (space, behind) = text.split_first()?;
    let (word, rest) = cut(behind, b' ');
    let found = multiplier(word)?;
    if *space == b' ' && least <= u64::from(found.0) {
        Some((found, rest))
    } else {
        None
    }
}

/// Returns the multipliers that have this text, one or more.
fn multipliers(alloc: Global, text: &[u8]) -> Result<Option<Vec<(u32, u64)>>, AllocError>
    ensures found { IfOk result
        (λ found. IfSome found (λ ms. AreMultipliers ms.items
        × (text.now ≡ multipliers_text ms.items))) }
    ensures only { IfOk result (λ found. (ms : List (ℕ × ℕ)) → AreMultipliers ms
        → text.now ≡ multipliers_text ms
        → IsSomeAnd found (λ v. v.items ≡ ms)) }
{
    let mut found = Vec::new(alloc);
    let mut rest = text;
    let mut least: u64 = 0;
    while !rest.is_empty() {
        let Some((multiplier, behind)) = first_multiplier(rest, least) else {
            return Ok(None);
        };
        found.push(multiplier)?;
        least = u64::from(multiplier.0) + 1;
        rest = behind;
    }
    Ok(if found.is_empty() { None } else { Some(found) })
}

/// Returns the line without numbers that has this text.
fn bare_line(text: &[u8]) -> Option<Line>
    ensures found { IfSome result (λ l. IsBareLine (line_of l)
        × (text.now ≡ line_text (line_of l))) }
    ensures only { (l : LineValue) → IsBareLine l → text.now ≡ line_text l
        → option_map line_of result ≡ Some l }
{
    if text == b"s".as_slice() {
        Some(Line::Split)
    } else if text == b"t".as_slice() {
        Some(Line::Plain)
    } else if text == b"caesar certificate 1".as_slice() {
        Some(Line::Title(Version::One))
    } else if text == b"caesar certificate 2".as_slice() {
        Some(Line::Title(Version::Two))
    } else if text == b"end".as_slice() {
        Some(Line::Last)
    } else {
        None
    }
}

/// Returns the line that has this text.
pub fn read_line(alloc: Global, text: &[u8]) -> Result<Option<Line>, AllocError>
    ensures found { IfOk result
        (λ found. IfSome found (λ l. IsLine (line_of l) × (text.now ≡ line_text (line_of l)))) }
    ensures only { IfOk result (λ found. (l : LineValue) → IsLine l → text.now ≡ line_text l
        → option_map line_of found ≡ Some l) }
{
    if let Some(line) = bare_line(text) {
        Ok(Some(line))
    } else if let Some(split) = text.strip_prefix(b"i ".as_slice()) {
        Ok(match whole_split(split) {
            Some((variable, bound)) => Some(Line::Whole(variable, bound)),
            None => None,
        })
    } else if let Some(name) = text.strip_prefix(b"goal ".as_slice()) {
        Ok(match goal_name(name) {
            Some(name) => Some(Line::Goal(name)),
            None => None,
        })
    } else if let Some(list) = text.strip_prefix(b"f".as_slice()) {
        Ok(match multipliers(alloc, list)? {
            Some(list) => Some(Line::Farkas(list)),
            None => None,
        })
    } else {
        Ok(None)
    }
}
