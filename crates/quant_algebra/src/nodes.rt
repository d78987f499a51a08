//! The operators of nodes on the values of their parts. `None` means that a number overflows.

ghost use Rattle.std.specs.Prelude.{◌≡◌, option_map};
ghost use Rattle.heyvl_num.specs.ExtendedNumbers.{value_of};
ghost use Rattle.quant_algebra.specs.internal.Nodes.{exact_binary, exact_unary, exact_comparison};

use crate::operators::{
    at_most, coimplies, covalidate, cut, difference, equal, implies, less, max, min, scale,
    validate,
};
use heyvl_num::{Ext, Frac};

/// An operator on two values.
#[derive(Clone, Copy)]
pub(crate) enum Binary {
    Sum,
    Difference,
    Cut,
    Product,
    Min,
    Max,
    Imply,
    CoImply,
}

/// An operator on one value.
#[derive(Clone, Copy)]
pub(crate) enum Unary {
    Scale(Frac),
    Validate,
    CoValidate,
}

/// A comparison of two values.
#[derive(Clone, Copy)]
pub(crate) enum Comparison {
    AtMost,
    Less,
    Equal,
}

/// Returns the value of an operator on two values.
#[inline(never)]
pub(crate) fn of_values(operator: Binary, x: &Ext, y: &Ext) -> Option<Ext>
    ensures { option_map value_of result ≡ exact_binary operator (value_of x.now) (value_of y.now) }
{
    match operator {
        Binary::Sum => x.add(y),
        Binary::Difference => difference(x, y),
        Binary::Cut => cut(x, y),
        Binary::Product => x.mul(y),
        Binary::Min => min(x, y),
        Binary::Max => max(x, y),
        Binary::Imply => implies(x, y),
        Binary::CoImply => coimplies(x, y),
    }
}

/// Returns the value of an operator on one value.
#[inline(never)]
pub(crate) fn of_value(operator: &Unary, x: &Ext) -> Option<Ext>
    ensures { option_map value_of result ≡ exact_unary operator.now (value_of x.now) }
{
    match operator {
        Unary::Scale(w) => scale(w, x),
        Unary::Validate => Some(validate(x)),
        Unary::CoValidate => Some(covalidate(x)),
    }
}

/// Returns whether a comparison of two values holds.
pub(crate) fn is_so(operator: Comparison, x: &Ext, y: &Ext) -> Option<bool>
    ensures { result ≡ exact_comparison operator (value_of x.now) (value_of y.now) }
{
    match operator {
        Comparison::AtMost => at_most(x, y),
        Comparison::Less => less(x, y),
        Comparison::Equal => equal(x, y),
    }
}
