//! The operators on linear values and infinity (None): the comparisons that they ask, and their
//! results, with the index of the next answer of the path.

ghost use Rattle.std.specs.Prelude.{◌≡◌, ◌&&◌, ◌||◌, ◌<◌, length, List, Some, None, true};
ghost use Rattle.std.specs.Prelude.{if◌then◌else◌};
ghost use Rattle.linear_values.specs.Lin.{minus as lin_minus, scaled as lin_scaled};
ghost use Rattle.heyvl_num.specs.Value.{is_zeroʳ};
ghost use Rattle.linear_form.specs.Query.{Taken as PlainTaken};
ghost use Rattle.linear_form.specs.Questions as tree;
ghost use Rattle.linear_values.specs.Operator.{has_no_terms};
ghost use Rattle.linear_form.specs.internal.Run.{along, Evaluation};
ghost use Rattle.linear_values.specs.Kept.{IsKept, IsKeptValue};
ghost use Rattle.linear_values.specs.PlainValues.{lin_of, linear_of};
ghost use Rattle.linear_form.specs.PlainPaths.{path_of};
ghost use Rattle.linear_form.specs.internal.EvaluationResults.{Gives, GivesTruth};

use crate::cursor::{Found, Stop, Tested, answered};
use crate::paths::{Atom, Taken};
use heyvl_num::Frac;
use linear_values::Lin;
use linear_values::lin::{constant, copy, copy_value, is_constant, is_sized, minus, plus, scaled};
use linear_values::multiples::small_multiple;
use linear_values::numbers::{fits, is_negative, is_zero, signed, sum as number_sum};
use std::alloc::Global;
use std::rc::Rc;

/// Returns whether `a` is at most 0 or, if `strict`, below 0: known if `a` is constant.
fn is_below(alloc: Global, a: Lin, strict: bool, path: &[Taken], at: usize) -> Result<Tested, Stop>
    ensures { GivesTruth result (along (path_of path.now) (tree.is_below (lin_of a) strict) at) }
{
    if !is_sized(&a) {
        Err(Stop::Bits)
    } else if is_constant(&a) {
        Ok(Tested {
            holds: is_negative(&a.rest, strict),
            next: at,
        })
    } else {
        let atom = Rc::new(alloc, Atom::Row(a, strict))?;
        answered(&atom, path, at)
    }
}

/// Returns whether `a` is at most `b` or, if `strict`, below it.
fn compare(
    alloc: Global,
    a: &Lin,
    b: &Lin,
    strict: bool,
    path: &[Taken],
    at: usize,
) -> Result<Tested, Stop>
    requires left { IsKept (lin_of a.now) }
    requires right { IsKept (lin_of b.now) }
    ensures { GivesTruth result
        (along (path_of path.now) (tree.is_below (lin_minus (lin_of a.now) (lin_of b.now)) strict)
        at) }
{
    if at < path.len() {
        if is_constant(a) || is_constant(b) {
            return compare_on(a, b, strict, path, at);
        }
    }
    let difference = minus(alloc, a, b)?;
    is_below(alloc, difference, strict, path, at)
}

fn are_constant(a: &Lin, b: &Lin) -> bool
    ensures { result ≡ (has_no_terms (lin_of a.now).terms && has_no_terms (lin_of b.now).terms) }
{
    is_constant(a) && is_constant(b)
}

/// Compares as `compare` does, without the difference, on a path with an answer left.
fn compare_on(a: &Lin, b: &Lin, strict: bool, path: &[Taken], at: usize) -> Result<Tested, Stop>
    requires left { IsKept (lin_of a.now) }
    requires right { IsKept (lin_of b.now) }
    requires constant { (has_no_terms (lin_of a.now).terms || has_no_terms (lin_of b.now).terms)
        ≡ true }
    requires goes_on { at < length path.now }
    ensures { GivesTruth result
        (along (path_of path.now) (tree.is_below (lin_minus (lin_of a.now) (lin_of b.now)) strict)
        at) }
{
    let rest = number_sum(&a.rest, &signed(&b.rest, true));
    if !fits(&rest) {
        Err(Stop::Bits)
    } else if are_constant(a, b) {
        Ok(Tested {
            holds: is_negative(&rest, strict),
            next: at,
        })
    } else {
        Ok(Tested {
            holds: path[at].held,
            next: at + 1,
        })
    }
}

/// Returns `value`, or an overflow if one of its numbers has more than 62 bits.
fn sized(value: Lin, at: usize) -> Result<Found, Stop>
    ensures { (ps : List PlainTaken)
        → Gives result (along ps (tree.sized (Some (lin_of value))) at) }
{
    if is_sized(&value) {
        Ok(Found {
            value: Some(value),
            next: at,
        })
    } else {
        Err(Stop::Bits)
    }
}

/// Returns the value 0.
pub(crate) fn nothing(alloc: Global) -> Option<Lin>
    ensures { linear_of result ≡ tree.zero }
{
    Some(constant(alloc, Frac::zero()))
}

/// Returns the value 1.
pub(crate) fn unit(alloc: Global) -> Option<Lin>
    ensures { linear_of result ≡ tree.one }
{
    Some(constant(alloc, Frac::one()))
}

fn same(alloc: Global, a: &Option<Lin>, at: usize) -> Result<Found, Stop>
    ensures { Gives result (Evaluation.value (linear_of a.now) at) }
{
    Ok(Found {
        value: copy_value(alloc, a)?,
        next: at,
    })
}

/// Returns infinity times `a`: 0 if `a` is at most 0, otherwise infinity.
fn zero_or_infinity(alloc: Global, a: Lin, path: &[Taken], at: usize) -> Result<Found, Stop>
    ensures { Gives result (along (path_of path.now) (tree.infinite_product (lin_of a)) at) }
{
    let test = is_below(alloc, a, false, path, at)?;
    if test.holds {
        Ok(Found {
            value: nothing(alloc),
            next: test.next,
        })
    } else {
        Ok(Found {
            value: None,
            next: test.next,
        })
    }
}

fn infinite_product(alloc: Global, a: &Lin, path: &[Taken], at: usize) -> Result<Found, Stop>
    ensures { Gives result (along (path_of path.now) (tree.infinite_product (lin_of a.now)) at) }
{
    let factor = copy(alloc, a)?;
    zero_or_infinity(alloc, factor, path, at)
}

fn finite_product(alloc: Global, a: &Lin, b: &Lin, path: &[Taken], at: usize) -> Result<Found, Stop>
    requires left { IsKept (lin_of a.now) }
    requires right { IsKept (lin_of b.now) }
    ensures { Gives result (along (path_of path.now)
        (tree.finite_product (lin_of a.now).terms (lin_of b.now).terms (lin_of a.now)
        (lin_of b.now)) at) }
{
    if is_constant(a) {
        let total = scaled(alloc, &a.rest, b)?;
        sized(total, at)
    } else if is_constant(b) {
        let total = scaled(alloc, &b.rest, a)?;
        sized(total, at)
    } else {
        Err(Stop::Bits)
    }
}

#[tactic(auto, unfolding(crate::specs::internal::Run::along))]
pub(crate) fn sum(
    alloc: Global,
    a: &Option<Lin>,
    b: &Option<Lin>,
    path: &[Taken],
    at: usize,
) -> Result<Found, Stop>
    requires left { IsKeptValue (linear_of a.now) }
    requires right { IsKeptValue (linear_of b.now) }
    ensures { Gives result (along (path_of path.now)
        (tree.sum (linear_of a.now) (linear_of b.now)) at) }
{
    match a {
        None => Ok(Found {
            value: None,
            next: at,
        }),
        Some(x) => match b {
            None => Ok(Found {
                value: None,
                next: at,
            }),
            Some(y) => {
                let total = plus(alloc, x, y)?;
                sized(total, at)
            }
        },
    }
}

#[tactic(auto, unfolding(crate::specs::internal::Run::along))]
pub(crate) fn difference(
    alloc: Global,
    a: &Option<Lin>,
    b: &Option<Lin>,
    path: &[Taken],
    at: usize,
) -> Result<Found, Stop>
    requires left { IsKeptValue (linear_of a.now) }
    requires right { IsKeptValue (linear_of b.now) }
    ensures { Gives result (along (path_of path.now)
        (tree.difference (linear_of a.now) (linear_of b.now)) at) }
{
    match a {
        None => Ok(Found {
            value: None,
            next: at,
        }),
        Some(x) => match b {
            None => Ok(Found {
                value: nothing(alloc),
                next: at,
            }),
            Some(y) => {
                let left = minus(alloc, x, y)?;
                sized(left, at)
            }
        },
    }
}

#[tactic(auto, unfolding(crate::specs::internal::Run::along))]
pub(crate) fn cut(
    alloc: Global,
    a: &Option<Lin>,
    b: &Option<Lin>,
    path: &[Taken],
    at: usize,
) -> Result<Found, Stop>
    requires left { IsKeptValue (linear_of a.now) }
    requires right { IsKeptValue (linear_of b.now) }
    ensures { Gives result (along (path_of path.now)
        (tree.cut (linear_of a.now) (linear_of b.now)) at) }
{
    match a {
        None => match b {
            None => Ok(Found {
                value: nothing(alloc),
                next: at,
            }),
            Some(_) => Ok(Found {
                value: None,
                next: at,
            })
        },
        Some(x) => match b {
            None => Ok(Found {
                value: nothing(alloc),
                next: at,
            }),
            Some(y) => {
                let test = compare(alloc, y, x, false, path, at)?;
                if test.holds {
                    let left = minus(alloc, x, y)?;
                    sized(left, test.next)
                } else {
                    Ok(Found {
                        value: nothing(alloc),
                        next: test.next,
                    })
                }
            }
        },
    }
}

#[tactic(auto, unfolding(crate::specs::internal::Run::along))]
pub(crate) fn product(
    alloc: Global,
    a: &Option<Lin>,
    b: &Option<Lin>,
    path: &[Taken],
    at: usize,
) -> Result<Found, Stop>
    requires left { IsKeptValue (linear_of a.now) }
    requires right { IsKeptValue (linear_of b.now) }
    ensures { Gives result (along (path_of path.now)
        (tree.product (linear_of a.now) (linear_of b.now)) at) }
{
    match a {
        None => match b {
            None => Ok(Found {
                value: None,
                next: at,
            }),
            Some(y) => infinite_product(alloc, y, path, at)
        },
        Some(x) => match b {
            None => infinite_product(alloc, x, path, at),
            Some(y) => { finite_product(alloc, x, y, path, at) }
        },
    }
}

pub(crate) fn min(
    alloc: Global,
    a: &Option<Lin>,
    b: &Option<Lin>,
    path: &[Taken],
    at: usize,
) -> Result<Found, Stop>
    requires left { IsKeptValue (linear_of a.now) }
    requires right { IsKeptValue (linear_of b.now) }
    ensures { Gives result (along (path_of path.now)
        (tree.min (linear_of a.now) (linear_of b.now)) at) }
{
    match a {
        None => same(alloc, b, at),
        Some(x) => match b {
            None => same(alloc, a, at),
            Some(y) => {
                let least = compare(alloc, x, y, false, path, at)?;
                if least.holds {
                    same(alloc, a, least.next)
                } else {
                    same(alloc, b, least.next)
                }
            }
        },
    }
}

pub(crate) fn max(
    alloc: Global,
    a: &Option<Lin>,
    b: &Option<Lin>,
    path: &[Taken],
    at: usize,
) -> Result<Found, Stop>
    requires left { IsKeptValue (linear_of a.now) }
    requires right { IsKeptValue (linear_of b.now) }
    ensures { Gives result (along (path_of path.now)
        (tree.max (linear_of a.now) (linear_of b.now)) at) }
{
    match a {
        None => Ok(Found {
            value: None,
            next: at,
        }),
        Some(x) => match b {
            None => Ok(Found {
                value: None,
                next: at,
            }),
            Some(y) => {
                let test = compare(alloc, x, y, false, path, at)?;
                if test.holds {
                    same(alloc, b, test.next)
                } else {
                    same(alloc, a, test.next)
                }
            }
        },
    }
}

pub(crate) fn imply(
    alloc: Global,
    a: &Option<Lin>,
    b: &Option<Lin>,
    path: &[Taken],
    at: usize,
) -> Result<Found, Stop>
    requires left { IsKeptValue (linear_of a.now) }
    requires right { IsKeptValue (linear_of b.now) }
    ensures { Gives result (along (path_of path.now)
        (tree.imply (linear_of a.now) (linear_of b.now)) at) }
{
    match a {
        None => same(alloc, b, at),
        Some(x) => match b {
            None => Ok(Found {
                value: None,
                next: at,
            }),
            Some(y) => {
                let test = compare(alloc, x, y, false, path, at)?;
                if test.holds {
                    Ok(Found {
                        value: None,
                        next: test.next,
                    })
                } else {
                    same(alloc, b, test.next)
                }
            }
        },
    }
}

pub(crate) fn co_imply(
    alloc: Global,
    a: &Option<Lin>,
    b: &Option<Lin>,
    path: &[Taken],
    at: usize,
) -> Result<Found, Stop>
    requires left { IsKeptValue (linear_of a.now) }
    requires right { IsKeptValue (linear_of b.now) }
    ensures { Gives result (along (path_of path.now)
        (tree.co_imply (linear_of a.now) (linear_of b.now)) at) }
{
    match a {
        None => Ok(Found {
            value: nothing(alloc),
            next: at,
        }),
        Some(x) => match b {
            None => Ok(Found {
                value: None,
                next: at,
            }),
            Some(y) => {
                let test = compare(alloc, y, x, false, path, at)?;
                if test.holds {
                    Ok(Found {
                        value: nothing(alloc),
                        next: test.next,
                    })
                } else {
                    same(alloc, b, test.next)
                }
            }
        },
    }
}

/// Returns infinity if `a` is infinity, otherwise 0.
pub(crate) fn validate(alloc: Global, a: &Option<Lin>, at: usize) -> Found
    ensures value { linear_of result.value ≡ tree.validate (linear_of a.now) }
    ensures next { result.next ≡ at }
{
    let value = match a {
        None => None,
        Some(_) => nothing(alloc),
    };
    Found { value, next: at }
}

/// Returns 0 if `a` is at most 0, otherwise infinity.
#[tactic(auto, unfolding(crate::specs::internal::Run::along))]
pub(crate) fn co_validate(
    alloc: Global,
    a: &Option<Lin>,
    path: &[Taken],
    at: usize,
) -> Result<Found, Stop>
    ensures { Gives result (along (path_of path.now) (tree.co_validate (linear_of a.now)) at) }
{
    match a {
        None => Ok(Found {
            value: None,
            next: at,
        }),
        Some(x) => infinite_product(alloc, x, path, at),
    }
}

/// Returns `w` times infinity; 0 times infinity is 0.
fn infinite_multiple(alloc: Global, w: &Frac) -> Option<Lin>
    ensures { linear_of result ≡ (if is_zeroʳ w.now then tree.zero else None) }
{
    if is_zero(w) { nothing(alloc) } else { None }
}

fn finite_multiple(alloc: Global, w: &Frac, a: &Lin, at: usize) -> Result<Found, Stop>
    requires { IsKept (lin_of a.now) }
    ensures { (ps : List PlainTaken)
        → Gives result (along ps (tree.sized (Some (lin_scaled w.now (lin_of a.now)))) at) }
{
    match small_multiple(alloc, w, a)? {
        Some(total) => Ok(Found {
            value: Some(total),
            next: at,
        }),
        None => Err(Stop::Bits),
    }
}

pub(crate) fn scale(alloc: Global, w: &Frac, a: &Option<Lin>, at: usize) -> Result<Found, Stop>
    requires { IsKeptValue (linear_of a.now) }
    ensures { (ps : List PlainTaken)
        → Gives result (along ps (tree.scale w.now (linear_of a.now)) at) }
{
    match a {
        None => Ok(Found {
            value: infinite_multiple(alloc, w),
            next: at,
        }),
        Some(x) => finite_multiple(alloc, w, x, at),
    }
}

#[tactic(auto, unfolding(crate::specs::internal::Run::along))]
pub(crate) fn at_most(
    alloc: Global,
    a: &Option<Lin>,
    b: &Option<Lin>,
    path: &[Taken],
    at: usize,
) -> Result<Tested, Stop>
    requires left { IsKeptValue (linear_of a.now) }
    requires right { IsKeptValue (linear_of b.now) }
    ensures { GivesTruth result
        (along (path_of path.now) (tree.at_most (linear_of a.now) (linear_of b.now)) at) }
{
    match a {
        None => match b {
            None => Ok(Tested {
                holds: true,
                next: at,
            }),
            Some(_) => Ok(Tested {
                holds: false,
                next: at,
            }),
        },
        Some(x) => match b {
            None => Ok(Tested {
                holds: true,
                next: at,
            }),
            Some(y) => compare(alloc, x, y, false, path, at),
        },
    }
}

#[tactic(auto, unfolding(crate::specs::internal::Run::along))]
pub(crate) fn less(
    alloc: Global,
    a: &Option<Lin>,
    b: &Option<Lin>,
    path: &[Taken],
    at: usize,
) -> Result<Tested, Stop>
    requires left { IsKeptValue (linear_of a.now) }
    requires right { IsKeptValue (linear_of b.now) }
    ensures { GivesTruth result
        (along (path_of path.now) (tree.less (linear_of a.now) (linear_of b.now)) at) }
{
    match a {
        None => Ok(Tested {
            holds: false,
            next: at,
        }),
        Some(x) => match b {
            None => Ok(Tested {
                holds: true,
                next: at,
            }),
            Some(y) => compare(alloc, x, y, true, path, at),
        },
    }
}

/// Returns whether `a` equals `b`: whether each is at most the other.
#[tactic(auto, unfolding(crate::specs::internal::Run::along))]
pub(crate) fn equal(
    alloc: Global,
    a: &Option<Lin>,
    b: &Option<Lin>,
    path: &[Taken],
    at: usize,
) -> Result<Tested, Stop>
    requires left { IsKeptValue (linear_of a.now) }
    requires right { IsKeptValue (linear_of b.now) }
    ensures { GivesTruth result
        (along (path_of path.now) (tree.equal (linear_of a.now) (linear_of b.now)) at) }
{
    let test = at_most(alloc, a, b, path, at)?;
    if test.holds {
        at_most(alloc, b, a, path, test.next)
    } else {
        Ok(test)
    }
}
