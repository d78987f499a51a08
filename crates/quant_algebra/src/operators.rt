//! The operators of formulas on exact numbers. `None` means that a number overflows.

ghost use Rattle.std.specs.Prelude.{◌≡◌, option_map};
ghost use Rattle.heyvl_num.specs.ExtendedNumbers.{value_of};
ghost use Rattle.heylo_formula.specs.Operators.{validateᵛ, covalidateᵛ};
ghost use Rattle.quant_algebra.specs.ExactOperators.{exact_differenceᵛ, exact_cutᵛ, exact_scaleᵛ};
ghost use Rattle.quant_algebra.specs.ExactOperators.{exact_minᵛ, exact_maxᵛ, exact_impliesᵛ};
ghost use Rattle.quant_algebra.specs.ExactOperators.{exact_coimpliesᵛ, exact_leqᵛ, exact_lessᵛ};
ghost use Rattle.quant_algebra.specs.ExactOperators.{exact_equalᵛ};

use heyvl_num::{Ext, Frac};
use std::cmp::Ordering;

/// Returns the difference: 0 for a fraction minus infinity, and infinity for infinity minus any
/// value. Both values are finite in a well-typed formula.
pub(crate) fn difference(x: &Ext, y: &Ext) -> Option<Ext>
    ensures { option_map value_of result ≡ exact_differenceᵛ (value_of x.now) (value_of y.now) }
{
    match (x, y) {
        (Ext::Fin(a), Ext::Fin(b)) => Some(Ext::Fin(a.sub(b)?)),
        (Ext::Fin(_), Ext::Inf) => Some(Ext::zero()),
        (Ext::Inf, _) => Some(Ext::Inf),
    }
}

/// Returns the truncated difference, which is 0 where it would be negative.
pub(crate) fn cut(x: &Ext, y: &Ext) -> Option<Ext>
    ensures { option_map value_of result ≡ exact_cutᵛ (value_of x.now) (value_of y.now) }
{
    match x.compare(y)? {
        Ordering::Less => Some(Ext::zero()),
        Ordering::Equal => Some(Ext::zero()),
        Ordering::Greater => difference(x, y),
    }
}

pub(crate) fn scale(w: &Frac, x: &Ext) -> Option<Ext>
    ensures { option_map value_of result ≡ exact_scaleᵛ w.now (value_of x.now) }
{
    Ext::Fin(*w).mul(x)
}

pub(crate) fn min(x: &Ext, y: &Ext) -> Option<Ext>
    ensures { option_map value_of result ≡ exact_minᵛ (value_of x.now) (value_of y.now) }
{
    match x.compare(y)? {
        Ordering::Less => Some(*x),
        Ordering::Equal => Some(*x),
        Ordering::Greater => Some(*y),
    }
}

pub(crate) fn max(x: &Ext, y: &Ext) -> Option<Ext>
    ensures { option_map value_of result ≡ exact_maxᵛ (value_of x.now) (value_of y.now) }
{
    match x.compare(y)? {
        Ordering::Less => Some(*y),
        Ordering::Equal => Some(*y),
        Ordering::Greater => Some(*x),
    }
}

/// Returns infinity if `x` is at most `y`, otherwise `y` (Goedel's implication).
pub(crate) fn implies(x: &Ext, y: &Ext) -> Option<Ext>
    ensures { option_map value_of result ≡ exact_impliesᵛ (value_of x.now) (value_of y.now) }
{
    match x.compare(y)? {
        Ordering::Less => Some(Ext::Inf),
        Ordering::Equal => Some(Ext::Inf),
        Ordering::Greater => Some(*y),
    }
}

/// Returns `y` if `x` is below `y`, otherwise 0 (coimplication).
pub(crate) fn coimplies(x: &Ext, y: &Ext) -> Option<Ext>
    ensures { option_map value_of result ≡ exact_coimpliesᵛ (value_of x.now) (value_of y.now) }
{
    match x.compare(y)? {
        Ordering::Less => Some(*y),
        Ordering::Equal => Some(Ext::zero()),
        Ordering::Greater => Some(Ext::zero()),
    }
}

pub(crate) fn validate(x: &Ext) -> Ext
    ensures { value_of result ≡ validateᵛ (value_of x.now) }
{
    match x {
        Ext::Fin(_) => Ext::zero(),
        Ext::Inf => Ext::Inf,
    }
}

pub(crate) fn covalidate(x: &Ext) -> Ext
    ensures { value_of result ≡ covalidateᵛ (value_of x.now) }
{
    match x {
        Ext::Fin(a) => if a.num() == 0 { Ext::zero() } else { Ext::Inf },
        Ext::Inf => Ext::Inf,
    }
}

pub(crate) fn at_most(x: &Ext, y: &Ext) -> Option<bool>
    ensures { result ≡ exact_leqᵛ (value_of x.now) (value_of y.now) }
{
    match x.compare(y)? {
        Ordering::Less => Some(true),
        Ordering::Equal => Some(true),
        Ordering::Greater => Some(false),
    }
}

pub(crate) fn less(x: &Ext, y: &Ext) -> Option<bool>
    ensures { result ≡ exact_lessᵛ (value_of x.now) (value_of y.now) }
{
    match x.compare(y)? {
        Ordering::Less => Some(true),
        Ordering::Equal => Some(false),
        Ordering::Greater => Some(false),
    }
}

pub(crate) fn equal(x: &Ext, y: &Ext) -> Option<bool>
    ensures { result ≡ exact_equalᵛ (value_of x.now) (value_of y.now) }
{
    match x.compare(y)? {
        Ordering::Less => Some(false),
        Ordering::Equal => Some(true),
        Ordering::Greater => Some(false),
    }
}
