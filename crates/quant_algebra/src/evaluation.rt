//! The values of formulas, the truth of conditions, and goals, in a given state. Nodes of one shape
//! share a function, so that each level of a deep formula takes little of the stack.

ghost use Rattle.std.specs.Prelude.{◌≡◌, ◌↔◌, true, option_map, IfSome};
ghost use Rattle.heyvl_num.specs.Value.Value.{finite};
ghost use Rattle.heyvl_num.specs.ExtendedNumbers.{value_of};
ghost use Rattle.heylo_formula.specs.PlainTrees.{form_of, cond_of};
ghost use Rattle.heylo_formula.specs.Goals.{goal_of, HoldsIn};
ghost use Rattle.heylo_formula.specs.Choices.{Choices};
ghost use Rattle.heylo_formula.specs.Meaning.{value as form_value, holds};
ghost use Rattle.heylo_formula.specs.State.{get, truth_of, number_of, environment};
ghost use Rattle.quant_algebra.specs.ExactOperators.{and_then};
ghost use Rattle.quant_algebra.specs.ExactMeaning.{at_of, held_of, exact_value, exact_truth};
ghost use Rattle.quant_algebra.specs.ExactMeaning.{exact_goal};
ghost use Rattle.quant_algebra.specs.internal.Nodes.{exact_binary, exact_unary, exact_comparison};

use crate::answers::{At, Held};
use crate::nodes::{Binary, Comparison, Unary, is_so, of_value, of_values};
use crate::operators::at_most;
use heylo_formula::{Cond, Form, Goal, Val};
use heyvl_num::Ext;

/// Returns the exact value of a formula without binders, which is the value that it means in the
/// state, or `Bits` if a number that is needed overflows.
pub fn value_at(form: &Form, state: &[Val]) -> At
    ensures exact { at_of result ≡ exact_value (form_of form.now) state.now }
    ensures meaning { IfSome (at_of result)
        (λ x. x ≡ form_value (form_of form.now) (environment state.now) Choices.stop) }
{
    at(value(form, state))
}

/// Returns whether a condition without binders holds in the state, or `Bits` if a number that is
/// needed overflows.
pub fn holds_at(cond: &Cond, state: &[Val]) -> Held
    ensures exact { held_of result ≡ exact_truth (cond_of cond.now) state.now }
    ensures meaning { IfSome (held_of result)
        (λ t. t ≡ holds (cond_of cond.now) (environment state.now) Choices.stop) }
{
    held(truth(cond, state))
}

/// Returns whether the inequality of a goal holds in the state, or `Bits` if a number that is
/// needed overflows.
pub fn goal_at(goal: &Goal, state: &[Val]) -> Held
    ensures exact { held_of result ≡ exact_goal (goal_of goal.now) state.now }
    ensures meaning { IfSome (held_of result) (λ t. (t ≡ true)
        ↔ HoldsIn (goal_of goal.now) (environment state.now)) }
{
    held(inequality(goal, state))
}

fn at(value: Option<Ext>) -> At
    ensures { at_of result ≡ option_map value_of value }
{
    match value {
        Some(x) => At::Value(x),
        None => At::Bits,
    }
}

fn held(truth: Option<bool>) -> Held
    ensures { held_of result ≡ truth }
{
    match truth {
        Some(true) => Held::Yes,
        Some(false) => Held::No,
        None => Held::Bits,
    }
}

fn inequality(goal: &Goal, state: &[Val]) -> Option<bool>
    ensures { result ≡ exact_goal (goal_of goal.now) state.now }
{
    let stated = value(&goal.stated, state)?;
    let found = value(&goal.found, state)?;
    if goal.upper {
        at_most(&found, &stated)
    } else {
        at_most(&stated, &found)
    }
}

/// Returns the value of a numeric variable, or 0 if the state has none.
fn number(x: u32, state: &[Val]) -> Ext
    ensures { value_of result ≡ finite (number_of (get x state.now)) }
{
    match state.get(x as usize) {
        Some(Val::Num(q)) => Ext::Fin(*q),
        Some(Val::Truth(_)) => Ext::zero(),
        None => Ext::zero(),
    }
}

/// Returns the value of a Boolean variable, or false if the state has none.
fn flag(x: u32, state: &[Val]) -> bool
    ensures { result ≡ truth_of (get x state.now) }
{
    match state.get(x as usize) {
        Some(Val::Truth(b)) => *b,
        Some(Val::Num(_)) => false,
        None => false,
    }
}

/// Returns the value of a formula.
#[cycle(evaluating)]
fn value(form: &Form, state: &[Val]) -> Option<Ext>
    ensures { option_map value_of result ≡ exact_value (form_of form.now) state.now }
{
    match form {
        Form::Const(v) => Some(*v),
        Form::Var(x) => Some(number(*x, state)),
        Form::Sum(a, b) => two_parts(Binary::Sum, a, b, state),
        Form::Diff(a, b) => two_parts(Binary::Difference, a, b, state),
        Form::Cut(a, b) => two_parts(Binary::Cut, a, b, state),
        Form::Scale(w, a) => one_part(&Unary::Scale(*w), a, state),
        Form::Product(a, b, _) => two_parts(Binary::Product, a, b, state),
        Form::Min(a, b) => two_parts(Binary::Min, a, b, state),
        Form::Max(a, b) => two_parts(Binary::Max, a, b, state),
        Form::Imply(a, b) => two_parts(Binary::Imply, a, b, state),
        Form::CoImply(a, b) => two_parts(Binary::CoImply, a, b, state),
        Form::Validate(a) => one_part(&Unary::Validate, a, state),
        Form::CoValidate(a) => one_part(&Unary::CoValidate, a, state),
        Form::Embed(g) => if truth(g, state)? {
            Some(Ext::Inf)
        } else {
            Some(Ext::zero())
        },
        Form::Iverson(g) => if truth(g, state)? {
            Some(Ext::one())
        } else {
            Some(Ext::zero())
        },
        Form::Select(g, a, b) => if truth(g, state)? {
            value(a, state)
        } else {
            value(b, state)
        },
        Form::Bind(_, _, _, _, _) => None,
    }
}

/// Returns the value of an operator on two formulas.
#[cycle(evaluating)]
#[inline(never)]
fn two_parts(operator: Binary, a: &Form, b: &Form, state: &[Val]) -> Option<Ext>
    ensures { option_map value_of result
        ≡ and_then (exact_value (form_of a.now) state.now)
        (λ x. and_then (exact_value (form_of b.now) state.now) (λ y. exact_binary operator x y)) }
{
    let x = value(a, state)?;
    let y = value(b, state)?;
    of_values(operator, &x, &y)
}

/// Returns the value of an operator on one formula.
#[cycle(evaluating)]
#[inline(never)]
fn one_part(operator: &Unary, a: &Form, state: &[Val]) -> Option<Ext>
    ensures { option_map value_of result
        ≡ and_then (exact_value (form_of a.now) state.now) (λ x. exact_unary operator.now x) }
{
    let x = value(a, state)?;
    of_value(operator, &x)
}

/// Returns whether a condition holds.
#[cycle(evaluating)]
fn truth(cond: &Cond, state: &[Val]) -> Option<bool>
    ensures { result ≡ exact_truth (cond_of cond.now) state.now }
{
    match cond {
        Cond::Const(b) => Some(*b),
        Cond::Var(x) => Some(flag(*x, state)),
        Cond::Not(g) => Some(!truth(g, state)?),
        Cond::And(g, h) => if truth(g, state)? {
            truth(h, state)
        } else {
            Some(false)
        },
        Cond::Or(g, h) => if truth(g, state)? {
            Some(true)
        } else {
            truth(h, state)
        },
        Cond::Same(g, h) => {
            let left = truth(g, state)?;
            let right = truth(h, state)?;
            Some(left == right)
        }
        Cond::Le(a, b) => compared(Comparison::AtMost, a, b, state),
        Cond::Lt(a, b) => compared(Comparison::Less, a, b, state),
        Cond::EqNum(a, b) => compared(Comparison::Equal, a, b, state),
        Cond::Ite(g, h, k) => if truth(g, state)? {
            truth(h, state)
        } else {
            truth(k, state)
        },
    }
}

/// Returns whether a comparison of two formulas holds.
#[cycle(evaluating)]
#[inline(never)]
fn compared(operator: Comparison, a: &Form, b: &Form, state: &[Val]) -> Option<bool>
    ensures { result ≡ and_then (exact_value (form_of a.now) state.now)
        (λ x. and_then (exact_value (form_of b.now) state.now)
        (λ y. exact_comparison operator x y)) }
{
    let x = value(a, state)?;
    let y = value(b, state)?;
    is_so(operator, &x, &y)
}
