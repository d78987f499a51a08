//! The lines of a simplex tableau, and the arithmetic of pivots. Untrusted: proposals are tested.
use heyvl_num::gcd;
use std::alloc::AllocError;

/// A variable as a combination of the columns of a tableau: the sum of each column times its number
/// (0 beyond the list), of `constant`, and of `small` times a small positive number, divided by
/// `over`, which is above 0. `changed` says that the line has changed since its value was computed.
#[derive(Drop)]
pub(crate) struct Line {
    pub(crate) numbers: Vec<i64>,
    pub(crate) constant: i64,
    pub(crate) small: i64,
    pub(crate) over: i64,
    pub(crate) changed: bool,
}

/// A value at the point of a tableau, times a denominator: a constant, and the multiple of a small
/// positive number.
#[derive(Clone, Copy)]
pub(crate) struct Value {
    pub(crate) constant: i64,
    pub(crate) small: i64,
}

impl Value {
    /// Returns the value 0.
    pub(crate) fn zero() -> Value {
        Value {
            constant: 0,
            small: 0,
        }
    }

    /// Returns whether two values are equal.
    pub(crate) fn is_same(self, other: Value) -> bool {
        self.constant == other.constant && self.small == other.small
    }
}

/// Returns `a * p - c * q`, or None on overflow.
fn difference(a: i64, p: i64, c: i64, q: i64) -> Option<i64> {
    a.checked_mul(p)?.checked_sub(c.checked_mul(q)?)
}

/// Returns `sum + a * b`, or None on overflow.
fn plus_product(sum: i64, a: i64, b: i64) -> Option<i64> {
    sum.checked_add(a.checked_mul(b)?)
}

/// Returns `a / b`, or None if `b` is 0 or on overflow.
pub(crate) fn quotient(a: i64, b: i64) -> Option<i64> {
    if a == b && a > 0 {
        Some(1)
    } else {
        a.checked_div(b)
    }
}

/// Returns the greatest common divisor of two numbers, or None on overflow.
fn common_divisor(a: i64, b: i64) -> Option<i64> {
    if a == 1 || b == 1 {
        return Some(1);
    }
    i64::try_from(gcd(u128::from(a.unsigned_abs()), u128::from(b.unsigned_abs()))).ok()
}

/// Returns the least common multiple of two numbers above 0, or None on overflow.
pub(crate) fn common_multiple(a: i64, b: i64) -> Option<i64> {
    if b == 1 || a == b {
        return Some(a);
    }
    if a.checked_rem(b)? == 0 {
        return Some(a);
    }
    a.checked_div(common_divisor(a, b)?)?.checked_mul(b)
}

/// Returns two numbers divided by their greatest common divisor, with opposite signs if the first
/// is below 0.
fn in_lowest_terms(p: i64, c: i64) -> Option<(i64, i64)> {
    let common = common_divisor(p, c)?;
    let signed = if p < 0 { common.checked_neg()? } else { common };
    if signed == 1 {
        return Some((p, c));
    }
    if signed == -1 {
        return Some((p.checked_neg()?, c.checked_neg()?));
    }
    Some((p.checked_div(signed)?, c.checked_div(signed)?))
}

/// Adds `c` times `numbers` to `sums`, which is at least as long. Returns false on overflow.
fn add_numbers(sums: &mut [i64], c: i64, numbers: &[i64]) -> bool {
    for (i, &number) in numbers.iter().enumerate() {
        if number != 0 {
            if let Some(sum) = sums.get_mut(i) {
                let Some(next) = plus_product(*sum, c, number) else {
                    return false;
                };
                *sum = next;
            }
        }
    }
    true
}

/// Multiplies each number by `p`. Returns false on overflow.
fn scale_numbers(numbers: &mut [i64], p: i64) -> bool {
    for i in 0..numbers.len() {
        let Some(next) = numbers[i].checked_mul(p) else {
            return false;
        };
        numbers[i] = next;
    }
    true
}

/// Subtracts `c` times `numbers` from `sums`, which is at least as long. Returns false on overflow.
fn take_numbers(sums: &mut [i64], c: i64, numbers: &[i64]) -> bool {
    for (i, &number) in numbers.iter().enumerate() {
        if number != 0 {
            if let Some(sum) = sums.get_mut(i) {
                let Some(next) = difference(*sum, 1, c, number) else {
                    return false;
                };
                *sum = next;
            }
        }
    }
    true
}

/// Replaces each number by `p` times it minus `c` times that of `others`. Returns false on
/// overflow.
fn mix_numbers(numbers: &mut [i64], p: i64, c: i64, others: &[i64]) -> bool {
    (p == 1 || scale_numbers(numbers, p)) && take_numbers(numbers, c, others)
}

/// Returns the greatest common divisor of `number` and all of `others`, or None on overflow.
fn divisor_of(number: i64, others: &[i64]) -> Option<i64> {
    let mut common = number;
    for &other in others {
        if common == 1 {
            break;
        }
        if other != 0 {
            common = common_divisor(other, common)?;
        }
    }
    Some(common)
}

/// Divides each number by `divisor`. Returns false if one cannot be divided.
fn divide_numbers(numbers: &mut [i64], divisor: i64) -> bool {
    for i in 0..numbers.len() {
        if numbers[i] != 0 {
            let Some(next) = numbers[i].checked_div(divisor) else {
                return false;
            };
            numbers[i] = next;
        }
    }
    true
}

impl Line {
    /// Returns the number of the column at a place.
    pub(crate) fn number(&self, place: usize) -> i64 {
        match self.numbers.get(place) {
            Some(number) => *number,
            None => 0,
        }
    }

    /// Adds `c` times the line `other`, apart from the denominators. Returns false on overflow.
    pub(crate) fn add(&mut self, c: i64, other: &Line) -> bool {
        let (Some(constant), Some(small)) = (
            plus_product(self.constant, c, other.constant),
            plus_product(self.small, c, other.small),
        ) else {
            return false;
        };
        self.constant = constant;
        self.small = small;
        add_numbers(&mut self.numbers, c, &other.numbers)
    }

    /// Replaces the line by `p` times it minus `c` times `other`, with a denominator `p` times as
    /// large. Returns false on overflow.
    fn mix(&mut self, p: i64, c: i64, other: &Line) -> bool {
        let (Some(constant), Some(small), Some(over)) = (
            difference(self.constant, p, c, other.constant),
            difference(self.small, p, c, other.small),
            self.over.checked_mul(p),
        ) else {
            return false;
        };
        self.constant = constant;
        self.small = small;
        self.over = over;
        mix_numbers(&mut self.numbers, p, c, &other.numbers)
    }

    /// Divides all numbers of the line by `divisor`. Returns false if one cannot be divided.
    fn divide(&mut self, divisor: i64) -> bool {
        let (Some(constant), Some(small), Some(over)) = (
            self.constant.checked_div(divisor),
            self.small.checked_div(divisor),
            self.over.checked_div(divisor),
        ) else {
            return false;
        };
        self.constant = constant;
        self.small = small;
        self.over = over;
        divide_numbers(&mut self.numbers, divisor)
    }

    /// Returns the greatest common divisor of all numbers of the line, or None on overflow.
    fn divisor(&self) -> Option<i64> {
        let first = common_divisor(self.small, common_divisor(self.constant, self.over)?)?;
        divisor_of(first, &self.numbers)
    }

    /// Divides the line to lowest terms. Returns false on overflow.
    pub(crate) fn reduce(&mut self) -> bool {
        if self.over == 1 {
            return true;
        }
        match self.divisor() {
            Some(divisor) => divisor == 1 || self.divide(divisor),
            None => false,
        }
    }

    /// Returns the value at the tableau's point, times `over`, a multiple of the line's
    /// denominator, or None on overflow.
    pub(crate) fn value(&self, over: i64) -> Option<Value> {
        let factor = quotient(over, self.over)?;
        if factor == 1 {
            return Some(Value {
                constant: self.constant,
                small: self.small,
            });
        }
        Some(Value {
            constant: self.constant.checked_mul(factor)?,
            small: self.small.checked_mul(factor)?,
        })
    }

    /// Extends the list of numbers to `width`.
    fn widen(&mut self, width: usize) -> Result<(), AllocError> {
        for _ in self.numbers.len()..width {
            self.numbers.push(0)?;
        }
        Ok(())
    }

    /// Sets the number of the column at a place.
    fn put(&mut self, place: usize, number: i64) {
        if let Some(entry) = self.numbers.get_mut(place) {
            *entry = number;
        }
    }

    /// Pivots the line: the variable of the line `pivot` replaces the column at `place`. Returns
    /// false on overflow.
    fn exchange(&mut self, pivot: &Line, place: usize) -> Result<bool, AllocError> {
        let number = self.number(place);
        if number == 0 {
            return Ok(true);
        }
        let Some((p, c)) = in_lowest_terms(pivot.number(place), number) else {
            return Ok(false);
        };
        let Some(own) = c.checked_mul(pivot.over) else {
            return Ok(false);
        };
        self.changed = true;
        self.widen(pivot.numbers.len())?;
        let mixed = self.mix(p, c, pivot);
        self.put(place, own);
        Ok(mixed && self.reduce())
    }
}

/// Returns the least common denominator of `lines`, or None on overflow.
pub(crate) fn common_denominator(lines: &[Line]) -> Option<i64> {
    let mut over = 1;
    for line in lines {
        if line.over != 1 {
            over = common_multiple(over, line.over)?;
        }
    }
    Some(over)
}

/// Pivots each of `lines`: the variable of the line `pivot` replaces the column at `place`. Returns
/// false on overflow.
pub(crate) fn exchange_lines(
    lines: &mut [Line],
    pivot: &Line,
    place: usize,
) -> Result<bool, AllocError> {
    for i in 0..lines.len() {
        if !lines[i].exchange(pivot, place)? {
            return Ok(false);
        }
    }
    Ok(true)
}
