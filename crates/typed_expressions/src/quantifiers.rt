//! Quantifiers in expressions.

ghost use Rattle.heyvl_syntax.specs.Expressions.{expression, expressions};
ghost use Rattle.std.specs.List.{list_any};
ghost use Rattle.std.specs.Prelude.{◌≡◌};
ghost use Rattle.typed_expressions.specs.TypedExpressions.{has_quantifier};

use heyvl_syntax::Expr;

/// Returns true if an expression has a quantifier anywhere.
fn has_quantifier(e: &Expr) -> bool
    ensures { result ≡ has_quantifier (expression e.now) }
{
    match e {
        Expr::Number(_, _) | Expr::Truth(_, _) | Expr::Infinity(_) | Expr::Name(_, _) => false,
        Expr::Group(inner, _)
        | Expr::Bracket(inner, _)
        | Expr::Embed(inner, _)
        | Expr::Unary(_, inner, _) => has_quantifier(inner),
        Expr::Binary(_, left, right, _) => has_quantifier(left) || has_quantifier(right),
        Expr::Choice(test, left, right, _) => {
            has_quantifier(test) || has_quantifier(left) || has_quantifier(right)
        }
        Expr::Bound(_, _, _, _, _) => true,
    }
}

/// Returns true if one of the expressions has a quantifier anywhere.
pub fn any_quantified(all: &[Expr]) -> bool
    ensures { result ≡ list_any has_quantifier (expressions all.now) }
{
    for e in all {
        if has_quantifier(e) {
            return true;
        }
    }
    false
}
