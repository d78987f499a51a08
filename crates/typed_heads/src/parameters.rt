//! Parameters: the variables that the head of a procedure declares.

ghost use Rattle.typed_expressions.specs.Answers.{Gives, TellsFirst};
ghost use Rattle.static_rules.specs.Files.{parameters_findings};
ghost use Rattle.typed_expressions.specs.Findings.{at};
ghost use Rattle.heyvl_acts.specs.PlainActs.{variable_of};
ghost use Rattle.typed_expressions.specs.Scopes.{is_visible, with_local};
ghost use Rattle.typed_expressions.specs.Table.{declarable};
ghost use Rattle.static_rules.specs.Variables.{behind_parameters, parameters};
ghost use Rattle.typed_expressions.specs.DeclaredVariables.{declared};
ghost use Rattle.std.specs.Option.{is_none};
ghost use Rattle.std.specs.Prelude.{◌++◌, ◌+◌, ◌<◌, ◌^◌, ◌≡◌, ◌∷◌, [], IfOk, OnOk, length, map};
ghost use Rattle.std.specs.Prelude.{suc};

use heylo_formula::Ty;
use heyvl_acts::VarInfo;
use heyvl_places::Name;
use heyvl_syntax::{Param, TypeName};
use std::alloc::{AllocError, Global};
use typed_expressions::{Local, ResolveStop, Scope, declarable};

/// Returns the variable of a declaration, with the type `Bool` if a variable may not have the
/// declared type, which is an error.
pub(crate) fn declared(alloc: Global, name: &Name, ty: TypeName) -> Result<VarInfo, AllocError>
    ensures { IfOk result (λ made. variable_of made ≡ declared name.now ty) }
{
    Ok(VarInfo {
        name: name.copy(alloc)?,
        ty: match declarable(ty) {
            Some(ty) => ty,
            None => Ty::Bool,
        },
    })
}

/// Returns the first broken rule of a parameter as an error.
fn check_parameter(scope: &Scope, param: &Param) -> Result<(), ResolveStop>
    ensures { TellsFirst result
        (at param.now.span ((11, is_visible scope.now param.now.name)
        ∷ (12, is_none (declarable param.now.ty)) ∷ [])) }
{
    if scope.sees(&param.name) {
        return Err(ResolveStop::Fault(11, param.span));
    }
    if declarable(param.ty).is_none() {
        return Err(ResolveStop::Fault(12, param.span));
    }
    Ok(())
}

/// Adds a parameter with this number, and returns the next number.
fn read_parameter(
    alloc: Global,
    scope: &mut Scope,
    vars: &mut Vec<VarInfo>,
    number: u32,
    param: &Param,
) -> Result<u32, ResolveStop>
    requires { number + 1 < 2 ^ 32 }
    ensures gives { Gives (λ next. next) result
        (at param.now.span ((11, is_visible scope.old param.now.name)
        ∷ (12, is_none (declarable param.now.ty)) ∷ [])) (suc number) }
    ensures shown { OnOk result
        (scope.new ≡ with_local param.now.name
        (record { number = number; ty = param.now.ty }) scope.old) }
    ensures listed { OnOk result (map variable_of vars.new.items ≡ map variable_of vars.old.items
        ++ declared param.now.name param.now.ty ∷ []) }
{
    check_parameter(scope, param)?;
    let local = Local {
        number,
        ty: param.ty,
    };
    scope.declare(alloc, &param.name, local)?;
    vars.push(declared(alloc, &param.name, param.ty)?)?;
    Ok(number + 1)
}

/// Adds parameters, of which the first has the number `first`, and returns the next number.
///
/// # Errors
///
/// `Fault` with the first static error in the parameters, or `Memory`.
pub fn read_parameters(
    alloc: Global,
    scope: &mut Scope,
    vars: &mut Vec<VarInfo>,
    first: u32,
    params: &[Param],
) -> Result<u32, ResolveStop>
    requires { first + length params.now < 2 ^ 32 }
    ensures gives { Gives (λ next. next) result (parameters_findings first scope.old params.now)
        (first + length params.now) }
    ensures shown { OnOk result (scope.new ≡ behind_parameters first scope.old params.now) }
    ensures listed { OnOk result (map variable_of vars.new.items ≡ map variable_of vars.old.items
        ++ parameters params.now) }
{
    let mut next = first;
    for param in params {
        next = read_parameter(alloc, scope, vars, next, param)?;
    }
    Ok(next)
}
