//! The variables of the leading quantifiers of post clauses.

ghost use Rattle.heyvl_acts.specs.PlainActs.{variable_of};
ghost use Rattle.heyvl_syntax.specs.Expressions.{expression, expressions};
ghost use Rattle.std.specs.Prelude.{◌++◌, ◌+◌, ◌<◌, ◌^◌, ◌≡◌, OnOk, length, map};
ghost use Rattle.typed_expressions.specs.DeclaredVariables.{front_variables, fronts_variables};

use crate::parameters::declared;
use heyvl_acts::VarInfo;
use heyvl_syntax::Expr;
use std::alloc::{AllocError, Global};

/// Returns the number after those of the leading quantifiers of an expression, of which the first
/// has the number `first`.
pub(crate) fn behind_front(first: u32, e: &Expr) -> u32
    requires { first + length (front_variables (expression e.now)) < 2 ^ 32 }
    ensures { result ≡ first + length (front_variables (expression e.now)) }
{
    match e {
        Expr::Bound(_, _, _, inner, _) => behind_front(first + 1, inner),
        Expr::Number(_, _)
        | Expr::Truth(_, _)
        | Expr::Infinity(_)
        | Expr::Name(_, _)
        | Expr::Group(_, _)
        | Expr::Bracket(_, _)
        | Expr::Embed(_, _)
        | Expr::Unary(_, _, _)
        | Expr::Binary(_, _, _, _)
        | Expr::Choice(_, _, _, _) => first,
    }
}

/// Appends the variables of the leading quantifiers of an expression.
fn list_front(alloc: Global, vars: &mut Vec<VarInfo>, e: &Expr) -> Result<(), AllocError>
    ensures { OnOk result (map variable_of vars.new.items ≡ map variable_of vars.old.items
        ++ front_variables (expression e.now)) }
{
    match e {
        Expr::Bound(_, name, ty, inner, _) => {
            vars.push(declared(alloc, name, *ty)?)?;
            list_front(alloc, vars, inner)
        }
        Expr::Number(_, _)
        | Expr::Truth(_, _)
        | Expr::Infinity(_)
        | Expr::Name(_, _)
        | Expr::Group(_, _)
        | Expr::Bracket(_, _)
        | Expr::Embed(_, _)
        | Expr::Unary(_, _, _)
        | Expr::Binary(_, _, _, _)
        | Expr::Choice(_, _, _, _) => Ok(()),
    }
}

/// Appends the variables of the leading quantifiers of expressions.
pub fn list_fronts(alloc: Global, vars: &mut Vec<VarInfo>, all: &[Expr]) -> Result<(), AllocError>
    ensures { OnOk result (map variable_of vars.new.items ≡ map variable_of vars.old.items
        ++ fronts_variables (expressions all.now)) }
{
    for e in all {
        list_front(alloc, vars, e)?;
    }
    Ok(())
}
