//! Tests on lists of names.

ghost use Rattle.std.specs.List.{list_any};
ghost use Rattle.std.specs.Prelude.{◌≡◌};
ghost use Rattle.std.specs.Str.{bytes_eq};
ghost use Rattle.typed_expressions.specs.Names.{any_twice};
ghost use Rattle.typed_expressions.specs.Scopes.{any_input, any_unknown, find, is_input};

use crate::scopes::Scope;
use heyvl_places::Name;

/// Returns true if one of the names is not visible.
pub fn any_unknown(scope: &Scope, names: &[Name]) -> bool
    ensures { result ≡ any_unknown scope.now names.now }
{
    for name in names {
        if !scope.sees(name) {
            return true;
        }
    }
    false
}

/// Returns true if `names` has `name`.
fn stands_among(name: &Name, names: &[Name]) -> bool
    ensures { result ≡ list_any (bytes_eq name.now) names.now }
{
    for other in names {
        if name == other {
            return true;
        }
    }
    false
}

/// Returns true if a name occurs twice.
pub fn any_twice(names: &[Name]) -> bool
    ensures { result ≡ any_twice names.now }
{
    let mut rest = names;
    while let Some((name, others)) = rest.split_first() {
        if stands_among(name, others) {
            return true;
        }
        rest = others;
    }
    false
}

/// Returns true if `name` is an input; the inputs have the numbers below `inputs`.
fn is_input(inputs: u32, scope: &Scope, name: &Name) -> bool
    ensures { result ≡ is_input inputs (find scope.now name.now) }
{
    match scope.find(name) {
        None => false,
        Some(local) => local.number < inputs,
    }
}

/// Returns true if one of the names is an input; the inputs have the numbers below `inputs`.
pub fn any_input(inputs: u32, scope: &Scope, names: &[Name]) -> bool
    ensures { result ≡ any_input inputs scope.now names.now }
{
    for name in names {
        if is_input(inputs, scope, name) {
            return true;
        }
    }
    false
}
