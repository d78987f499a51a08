//! Goals of tests. Before a goal is decided, its types are checked, for the kinds of formulas that
//! the tests use.

ghost use Rattle.std.specs.Prelude.{◌≡◌, ℕ, ◌<◌, ◌^◌, IsTrue, Some, true};
ghost use Rattle.heyvl_num.specs.ExtendedNumbers.{value_of};
ghost use Rattle.heylo_formula.specs.PlainTrees.{form_of, cond_of};
ghost use Rattle.heylo_formula.specs.Sizes.{nodes};
ghost use Rattle.heylo_formula.specs.Typing.{NumberType, type_of, is_well_typed, is_unsigned};
ghost use Rattle.heylo_formula.specs.Typing.{constant_type, number_type, difference_type, is_bool};
ghost use Rattle.heylo_formula.specs.Variables.{is_free, is_free_in};
ghost use Rattle.heylo_formula.specs.Typing.{types_in};

use heylo_formula::{Cond, Form, Goal, Ty};
use heyvl_num::Ext;
use region_split::{Decision, decide};
use std::alloc::{AllocError, Global};

const MOST_NODES: u64 = 536_870_912;

const MOST_VARIABLES: usize = 2_147_483_648;

/// Returns the type of the variable `x`.
fn type_at(types: &[Ty], x: u32) -> Ty
    ensures { result ≡ types_in types.now x }
{
    let place = x as usize;
    if place < types.len() {
        types[place]
    } else {
        Ty::Bool
    }
}

/// Returns whether the number is not negative. Infinity is not.
fn is_unsigned_number(v: &Ext) -> bool
    ensures { IsTrue result → is_unsigned (constant_type (value_of v.now)) ≡ true }
{
    match v {
        Ext::Fin(x) => x.num() >= 0,
        Ext::Inf => true,
    }
}

/// Returns whether the number is a natural number.
fn is_whole_number(v: &Ext) -> bool
    ensures { IsTrue result → difference_type (constant_type (value_of v.now))
        ≡ Some NumberType.int }
{
    match v {
        Ext::Fin(x) => x.num() >= 0 && x.den() == 1,
        Ext::Inf => false,
    }
}

fn is_unsigned_type(ty: Ty) -> bool
    ensures { IsTrue result → is_unsigned (number_type ty) ≡ true }
{
    matches!(ty, Ty::UInt | Ty::UReal)
}

fn is_whole_type(ty: Ty) -> bool
    ensures { IsTrue result → difference_type (number_type ty) ≡ Some NumberType.int }
{
    matches!(ty, Ty::UInt | Ty::Int)
}

fn is_bool_type(ty: Ty) -> bool
    ensures { IsTrue result → is_bool ty ≡ true }
{
    matches!(ty, Ty::Bool)
}

/// Returns whether the form is of type UInt or Int, for sums and products of variables and numbers.
fn is_whole(types: &[Ty], form: &Form) -> bool
    ensures { IsTrue result → difference_type (type_of (types_in types.now) (form_of form.now))
        ≡ Some NumberType.int }
{
    match form {
        Form::Const(v) => is_whole_number(v),
        Form::Var(x) => is_whole_type(type_at(types, *x)),
        Form::Sum(a, b) => is_whole(types, a) && is_whole(types, b),
        Form::Product(a, b, _) => is_whole(types, a) && is_whole(types, b),
        _ => false,
    }
}

/// Returns whether the condition is well typed, for Booleans and comparisons of integers.
fn is_condition(types: &[Ty], cond: &Cond) -> bool
    ensures { IsTrue result → is_well_typed (types_in types.now) (cond_of cond.now) ≡ true }
{
    match cond {
        Cond::Const(_) => true,
        Cond::Var(x) => is_bool_type(type_at(types, *x)),
        Cond::And(g, h) => is_condition(types, g) && is_condition(types, h),
        Cond::Le(a, b) => is_whole(types, a) && is_whole(types, b),
        Cond::Lt(a, b) => is_whole(types, a) && is_whole(types, b),
        _ => false,
    }
}

/// Returns whether the form is a formula, for sums, products and selections of variables and
/// numbers.
fn is_formula(types: &[Ty], form: &Form) -> bool
    ensures { IsTrue result → is_unsigned (type_of (types_in types.now) (form_of form.now)) ≡ true }
{
    match form {
        Form::Const(v) => is_unsigned_number(v),
        Form::Var(x) => is_unsigned_type(type_at(types, *x)),
        Form::Sum(a, b) => is_formula(types, a) && is_formula(types, b),
        Form::Product(a, b, _) => is_formula(types, a) && is_formula(types, b),
        Form::Iverson(g) => is_condition(types, g),
        Form::Select(g, a, b) => is_condition(types, g)
            && (is_formula(types, a) && is_formula(types, b)),
        _ => false,
    }
}

/// Returns whether each variable of the form is below `count`, for these kinds of forms.
#[cycle(owning)]
fn has_own(count: usize, form: &Form) -> bool
    ensures { IsTrue result → (x : ℕ) → is_free x (form_of form.now) ≡ true → x < count }
{
    match form {
        Form::Const(_) => true,
        Form::Var(x) => (*x as usize) < count,
        Form::Sum(a, b) => has_own(count, a) && has_own(count, b),
        Form::Product(a, b, _) => has_own(count, a) && has_own(count, b),
        Form::Iverson(g) => tests_own(count, g),
        Form::Select(g, a, b) => tests_own(count, g) && (has_own(count, a) && has_own(count, b)),
        _ => false,
    }
}

/// Returns whether each variable of the condition is below `count`, for these kinds of conditions.
#[cycle(owning)]
fn tests_own(count: usize, cond: &Cond) -> bool
    ensures { IsTrue result → (x : ℕ) → is_free_in x (cond_of cond.now) ≡ true → x < count }
{
    match cond {
        Cond::Const(_) => true,
        Cond::Var(x) => (*x as usize) < count,
        Cond::And(g, h) => tests_own(count, g) && tests_own(count, h),
        Cond::Le(a, b) => has_own(count, a) && has_own(count, b),
        Cond::Lt(a, b) => has_own(count, a) && has_own(count, b),
        _ => false,
    }
}

/// Returns whether the form is small enough to be decided.
fn is_small(form: &Form) -> bool
    ensures { IsTrue result → nodes (form_of form.now) < 2 ^ 29 }
{
    form.nodes() < MOST_NODES
}

/// Decides a goal. Its formulas have to be of these kinds.
pub fn decision_of(alloc: Global, goal: &Goal) -> Result<Decision, AllocError> {
    let types = goal.vars.as_slice();
    let count = types.len();
    if !(is_formula(types, &goal.stated) && is_formula(types, &goal.found)) {
        return Err(AllocError);
    }
    if !(has_own(count, &goal.stated) && has_own(count, &goal.found)) {
        return Err(AllocError);
    }
    if !(is_small(&goal.stated) && is_small(&goal.found) && count < MOST_VARIABLES) {
        return Err(AllocError);
    }
    decide(alloc, goal)
}
