//! Fractions, types and multipliers of tests. A malformed text yields `AllocError`.

use heylo_formula::Ty;
use heyvl_num::{Ext, Frac};
use std::alloc::{AllocError, Global};
use std::fmt::Write;
use test_lines::{count, cut, index, whole};

/// Reads a fraction such as `-1/2` or `3`.
pub fn fraction(word: &str) -> Result<Frac, AllocError> {
    let (num, den) = cut(word, '/');
    let den = if den.is_empty() { 1 } else { whole(den)? };
    match Frac::new(whole(num)?, den) {
        Some(x) => Ok(x),
        None => Err(AllocError),
    }
}

/// Reads a fraction, or `inf`.
pub fn extended(word: &str) -> Result<Ext, AllocError> {
    match word {
        "inf" => Ok(Ext::Inf),
        _ => Ok(Ext::Fin(fraction(word)?)),
    }
}

/// Returns the type of a letter: b is Bool, i is Int, u is UInt, and r is UReal.
fn type_of(letter: u8) -> Ty {
    match letter {
        b'b' => Ty::Bool,
        b'i' => Ty::Int,
        b'u' => Ty::UInt,
        _ => Ty::UReal,
    }
}

/// Reads the types of the variables, a letter for each.
pub fn types_of(alloc: Global, text: &str) -> Result<Vec<Ty>, AllocError> {
    let mut types = Vec::new(alloc);
    for letter in text.bytes() {
        types.push(type_of(letter))?;
    }
    Ok(types)
}

/// Reads the index of a row with its multiplier, such as `2:3`.
fn multiple(word: &str) -> Result<(u32, u64), AllocError> {
    let (row, times) = cut(word, ':');
    Ok((index(row)?, count(times)?))
}

/// Reads indexes of rows with their multipliers, such as `0:1 2:3`, with `mark` between them.
pub fn multipliers_of(
    alloc: Global,
    text: &str,
    mark: char,
) -> Result<Vec<(u32, u64)>, AllocError> {
    let mut multipliers = Vec::new(alloc);
    for part in text.split(mark) {
        if !part.is_empty() {
            multipliers.push(multiple(part)?)?;
        }
    }
    Ok(multipliers)
}

/// Appends a fraction in the notation of `fraction`.
pub fn write_fraction(x: &Frac, text: &mut String) -> Result<(), AllocError> {
    let num = x.num();
    let den = x.den();
    write!(text, "{num}")?;
    if den != 1 {
        write!(text, "/{den}")?;
    }
    Ok(())
}

/// Appends indexes of rows with their multipliers in the notation of `multipliers_of`, each
/// followed by a space.
pub fn write_multipliers(multipliers: &[(u32, u64)], text: &mut String) -> Result<(), AllocError> {
    for (row, times) in multipliers {
        write!(text, "{row}:{times} ")?;
    }
    Ok(())
}
