//! The types of values that variables may be assigned.

ghost use Rattle.typed_right_sides.specs.Views.{value_type};
ghost use Rattle.typed_expressions.specs.Views.{meaning_of, kind_of};
ghost use Rattle.static_rules.specs.RightSides.{flip_type, join_types, mismatches};
ghost use Rattle.static_rules.specs.RightSides.{mismatches_target, type_of_integers};
ghost use Rattle.static_rules.specs.RightSides.{type_of_meaning, type_of_name, value_widens_to};
ghost use Rattle.heylo_formula.specs.Typing.{is_finite_type, widens};
ghost use Rattle.std.specs.Prelude.{◌≡◌, ◌&&◌, Some, false, option_map};

use heyvl_syntax::TypeName;
use typed_expressions::{Kind, Meaning, joined};

/// The type of a value that a variable may be assigned.
#[derive(Clone, Copy, Debug, PartialEq, Eq)]
pub(crate) enum ValueType {
    Truth,
    Number(Kind),
}

/// Returns the type of an elaborated expression, if a variable may have it.
pub(crate) fn type_of_meaning(made: &Meaning) -> Option<ValueType>
    ensures { option_map value_type result ≡ type_of_meaning (meaning_of made.now) }
{
    match made {
        Meaning::Truth(_) => Some(ValueType::Truth),
        Meaning::Number(kind, _) => Some(ValueType::Number(*kind)),
        Meaning::Real => None,
    }
}

/// Returns the type of the values that a type name denotes.
pub(crate) fn type_of_name(name: TypeName) -> Option<ValueType>
    ensures { option_map value_type result ≡ type_of_name name }
{
    match name {
        TypeName::Bool => Some(ValueType::Truth),
        TypeName::Int => Some(ValueType::Number(Kind::Int)),
        TypeName::UInt => Some(ValueType::Number(Kind::UInt)),
        TypeName::UReal => Some(ValueType::Number(Kind::UReal)),
        TypeName::EUReal => Some(ValueType::Number(Kind::EUReal)),
        TypeName::Real => None,
    }
}

/// Returns the type of the integers from a lower end on: Int if this is negative, otherwise UInt.
pub(crate) fn type_of_integers(negative: bool) -> ValueType
    ensures { value_type result ≡ type_of_integers negative }
{
    if negative {
        ValueType::Number(Kind::Int)
    } else {
        ValueType::Number(Kind::UInt)
    }
}

/// Returns the type of a `flip` whose probability is not a weight literal and has the type `ty`:
/// none unless that is UInt or UReal.
pub(crate) fn toss_type(ty: Option<ValueType>) -> Option<ValueType>
    ensures { option_map value_type result ≡ flip_type false (option_map value_type ty) }
{
    match ty {
        Some(ValueType::Number(Kind::UInt)) => Some(ValueType::Truth),
        Some(ValueType::Number(Kind::UReal)) => Some(ValueType::Truth),
        Some(ValueType::Number(Kind::Int)) => None,
        Some(ValueType::Number(Kind::EUReal)) => None,
        Some(ValueType::Truth) => None,
        None => None,
    }
}

/// Returns the common type of two types, if there is one.
pub(crate) fn join_types(a: ValueType, b: ValueType) -> Option<ValueType>
    ensures { option_map value_type result ≡ join_types (value_type a) (value_type b) }
{
    match (a, b) {
        (ValueType::Truth, ValueType::Truth) => Some(ValueType::Truth),
        (ValueType::Truth, ValueType::Number(_)) => None,
        (ValueType::Number(_), ValueType::Truth) => None,
        (ValueType::Number(left), ValueType::Number(right)) => {
            let kind = joined(left, right)?;
            Some(ValueType::Number(kind))
        }
    }
}

/// Returns true if a finite type of numbers widens to another.
fn widens(from: Kind, to: Kind) -> bool
    ensures { result ≡ (is_finite_type (Some (kind_of from))
        && widens (kind_of from) (kind_of to)) }
{
    match (from, to) {
        (Kind::UInt, _) => true,
        (Kind::Int, Kind::Int) => true,
        (Kind::Int, Kind::UInt) => false,
        (Kind::Int, Kind::UReal) => false,
        (Kind::Int, Kind::EUReal) => false,
        (Kind::UReal, Kind::Int) => false,
        (Kind::UReal, Kind::UInt) => false,
        (Kind::UReal, Kind::UReal) => true,
        (Kind::UReal, Kind::EUReal) => true,
        (Kind::EUReal, _) => false,
    }
}

/// Returns true if a value of the first type may be assigned to a variable of the second.
fn widens_to(from: ValueType, to: ValueType) -> bool
    ensures { result ≡ value_widens_to (value_type from) (value_type to) }
{
    match (from, to) {
        (ValueType::Truth, ValueType::Truth) => true,
        (ValueType::Truth, ValueType::Number(_)) => false,
        (ValueType::Number(_), ValueType::Truth) => false,
        (ValueType::Number(left), ValueType::Number(right)) => widens(left, right),
    }
}

/// Returns true if a value of this type may not be assigned to a variable of this declared type.
pub(crate) fn mismatches(value: Option<ValueType>, name: TypeName) -> bool
    ensures { result ≡ mismatches (option_map value_type value) name }
{
    match (value, type_of_name(name)) {
        (Some(from), Some(to)) => !widens_to(from, to),
        (Some(_), None) => true,
        (None, _) => true,
    }
}

/// Returns true if a value of this type may not be assigned to a target; false for a target that is
/// not visible.
pub(crate) fn mismatches_target(value: Option<ValueType>, target: Option<TypeName>) -> bool
    ensures { result ≡ mismatches_target (option_map value_type value) target }
{
    match target {
        None => false,
        Some(name) => mismatches(value, name),
    }
}
