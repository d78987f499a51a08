//! Products that are not linear.

ghost use Rattle.std.specs.Prelude.{◌≡◌, ◌&&◌};
ghost use Rattle.heylo_formula.specs.PlainTrees.{form_of, cond_of};
ghost use Rattle.heylo_formula.specs.Goals.{goal_of};
ghost use Rattle.heylo_formula.specs.NumericVariables.{has_variable};
ghost use Rattle.linear_form.specs.Nonlinear.{product_at, first_product, first_product_in};
ghost use Rattle.linear_form.specs.Nonlinear.{nonlinear_product};

use heylo_formula::{Cond, Form, Goal};
use heyvl_places::Span;

/// Returns the place of the goal's first product whose factors both contain a numeric variable
/// outside conditions, or None if there is none. The order is that of the text, the stated bound
/// before the computed form.
pub fn nonlinear(goal: &Goal) -> Option<Span>
    ensures { result ≡ nonlinear_product (goal_of goal.now) }
{
    in_form(&goal.stated).or(in_form(&goal.found))
}

fn here(a: &Form, b: &Form, span: Span) -> Option<Span>
    ensures { result ≡ product_at (has_variable (form_of a.now)
        && has_variable (form_of b.now)) span }
{
    if a.has_variable() && b.has_variable() {
        Some(span)
    } else {
        None
    }
}

#[cycle(products)]
fn in_form(form: &Form) -> Option<Span>
    ensures { result ≡ first_product (form_of form.now) }
{
    match form {
        Form::Const(_) | Form::Var(_) => None,
        Form::Sum(a, b)
        | Form::Diff(a, b)
        | Form::Cut(a, b)
        | Form::Min(a, b)
        | Form::Max(a, b)
        | Form::Imply(a, b)
        | Form::CoImply(a, b) => in_form(a).or(in_form(b)),
        Form::Scale(_, a) | Form::Validate(a) | Form::CoValidate(a) | Form::Bind(_, _, _, _, a) =>
            in_form(a),
        Form::Product(a, b, span) => in_form(a).or(here(a, b, *span).or(in_form(b))),
        Form::Embed(g) | Form::Iverson(g) => in_cond(g),
        Form::Select(g, a, b) => in_cond(g).or(in_form(a).or(in_form(b))),
    }
}

#[cycle(products)]
fn in_cond(cond: &Cond) -> Option<Span>
    ensures { result ≡ first_product_in (cond_of cond.now) }
{
    match cond {
        Cond::Const(_) | Cond::Var(_) => None,
        Cond::Not(g) => in_cond(g),
        Cond::And(g, h) | Cond::Or(g, h) | Cond::Same(g, h) => in_cond(g).or(in_cond(h)),
        Cond::Le(a, b) | Cond::Lt(a, b) | Cond::EqNum(a, b) => in_form(a).or(in_form(b)),
        Cond::Ite(g, h, k) => in_cond(g).or(in_cond(h).or(in_cond(k))),
    }
}
