//! The start values of a program: the inputs of its coproc, and expressions over them.

ghost use Rattle.heyvl_syntax.specs.Expressions.{expression};
ghost use Rattle.heyvl_syntax.specs.Statements.{statement};
ghost use Rattle.guarded_commands.specs.Translation.{at_start, input, input_name, output, start};
ghost use Rattle.guarded_commands.specs.Translation.{type_name};
ghost use Rattle.std.specs.Prelude.{IfOk, map, ◌≡◌};

use crate::programs::{Declaration, VariableType};
use heyvl_places::Name;
use heyvl_syntax::{Expr, Param, Right, Stmt, TypeName};
use std::alloc::{AllocError, Global};

/// Returns the HeyVL type of a variable.
fn type_name(ty: VariableType) -> TypeName
    ensures { result ≡ type_name ty }
{
    match ty {
        VariableType::Bool => TypeName::Bool,
        VariableType::Nat => TypeName::UInt,
        VariableType::Real => TypeName::UReal,
    }
}

/// Returns the name of the input with the start value of a variable.
fn input_name(alloc: Global, name: &Name) -> Result<Name, AllocError>
    ensures { IfOk result (λ made. made ≡ input_name name.now) }
{
    let mut bytes = Vec::new(alloc);
    bytes.extend_from_slice(b"init_")?;
    bytes.extend_from_slice(name.as_bytes())?;
    Name::new(alloc, &bytes)
}

/// Returns the input with the start value of a variable.
fn input(alloc: Global, declaration: &Declaration) -> Result<Param, AllocError>
    ensures { IfOk result (λ made. made ≡ input declaration.now) }
{
    Ok(Param {
        name: input_name(alloc, &declaration.name)?,
        ty: type_name(declaration.ty),
        span: declaration.span,
    })
}

/// Returns the output of a variable.
fn output(alloc: Global, declaration: &Declaration) -> Result<Param, AllocError>
    ensures { IfOk result (λ made. made ≡ output declaration.now) }
{
    Ok(Param {
        name: declaration.name.copy(alloc)?,
        ty: type_name(declaration.ty),
        span: declaration.span,
    })
}

/// Returns the inputs of the variables, in their order.
pub(crate) fn inputs(alloc: Global, declarations: &[Declaration]) -> Result<Vec<Param>, AllocError>
    ensures { IfOk result (λ made. made.items ≡ map input declarations.now) }
{
    let mut made = Vec::with_capacity(alloc, declarations.len())?;
    for one in declarations {
        made.push(input(alloc, one)?)?;
    }
    Ok(made)
}

/// Returns the outputs of the variables, in their order.
pub(crate) fn outputs(alloc: Global, declarations: &[Declaration]) -> Result<Vec<Param>, AllocError>
    ensures { IfOk result (λ made. made.items ≡ map output declarations.now) }
{
    let mut made = Vec::with_capacity(alloc, declarations.len())?;
    for one in declarations {
        made.push(output(alloc, one)?)?;
    }
    Ok(made)
}

/// Returns `x = init_x`.
fn start(alloc: Global, declaration: &Declaration) -> Result<Stmt, AllocError>
    ensures { IfOk result (λ made. statement made ≡ start declaration.now) }
{
    let span = declaration.span;
    let value = Expr::Name(input_name(alloc, &declaration.name)?, span);
    let targets = vec![in alloc; declaration.name.copy(alloc)?]?;
    Ok(Stmt::Assign(targets, Right::Plain(value), span))
}

/// Returns `x = init_x` for each variable, in their order.
pub(crate) fn starts(alloc: Global, declarations: &[Declaration]) -> Result<Vec<Stmt>, AllocError>
    ensures { IfOk result (λ made. map statement made.items ≡ map start declarations.now) }
{
    let mut made = Vec::with_capacity(alloc, declarations.len())?;
    for one in declarations {
        made.push(start(alloc, one)?)?;
    }
    Ok(made)
}

/// Returns an expression with `init_x` for each variable `x`.
pub(crate) fn at_start(alloc: Global, value: &Expr) -> Result<Expr, AllocError>
    ensures { IfOk result (λ made. expression made ≡ at_start (expression value.now)) }
{
    match value {
        Expr::Number(number, span) => Ok(Expr::Number(*number, *span)),
        Expr::Truth(truth, span) => Ok(Expr::Truth(*truth, *span)),
        Expr::Infinity(span) => Ok(Expr::Infinity(*span)),
        Expr::Name(name, span) => Ok(Expr::Name(input_name(alloc, name)?, *span)),
        Expr::Group(inner, span) => Ok(Expr::Group(at_start(alloc, inner)?.boxed(alloc)?, *span)),
        Expr::Bracket(inner, span) => Ok(Expr::Bracket(
            at_start(alloc, inner)?.boxed(alloc)?,
            *span,
        )),
        Expr::Embed(inner, span) => Ok(Expr::Embed(at_start(alloc, inner)?.boxed(alloc)?, *span)),
        Expr::Unary(op, inner, span) => Ok(Expr::Unary(
            *op,
            at_start(alloc, inner)?.boxed(alloc)?,
            *span,
        )),
        Expr::Binary(op, left, right, span) => {
            let left = at_start(alloc, left)?.boxed(alloc)?;
            Ok(Expr::Binary(*op, left, at_start(alloc, right)?.boxed(alloc)?, *span))
        }
        Expr::Choice(test, left, right, span) => {
            let test = at_start(alloc, test)?.boxed(alloc)?;
            let left = at_start(alloc, left)?.boxed(alloc)?;
            Ok(Expr::Choice(test, left, at_start(alloc, right)?.boxed(alloc)?, *span))
        }
        Expr::Bound(up, name, ty, inner, span) => {
            let name = name.copy(alloc)?;
            Ok(Expr::Bound(*up, name, *ty, at_start(alloc, inner)?.boxed(alloc)?, *span))
        }
    }
}
