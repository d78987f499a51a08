//! Declarations and assignments.

ghost use Rattle.heyvl_acts.specs.Acts.Act.{any};
ghost use Rattle.heyvl_acts.specs.PlainActs.{act_of};
ghost use Rattle.heyvl_syntax.specs.Statements.{optional_right, right_side};
ghost use Rattle.static_rules.specs.RightSides.{right_findings};
ghost use Rattle.static_rules.specs.StatementActs.{assigned, declared_act, number_or_zero, targets};
ghost use Rattle.static_rules.specs.StatementRules.{assign_rules, value_findings, var_rules};
ghost use Rattle.std.specs.Option.{is_none};
ghost use Rattle.std.specs.Prelude.{◌++◌, ◌≡◌, ◌∷◌, [], IfOk, Some, false, option_map};
ghost use Rattle.typed_expressions.specs.Answers.{Gives};
ghost use Rattle.typed_expressions.specs.DeclaredVariables.{type_or_bool};
ghost use Rattle.typed_expressions.specs.Findings.{at};
ghost use Rattle.typed_expressions.specs.Names.{any_twice};
ghost use Rattle.typed_expressions.specs.Scopes.{any_input, any_unknown, is_visible};
ghost use Rattle.typed_expressions.specs.Scopes.{types_of_names};
ghost use Rattle.typed_expressions.specs.Table.{declarable};

use crate::right_sides::{Targets, read_right};
use heylo_formula::Ty;
use heyvl_acts::Act;
use heyvl_places::{Name, Span};
use heyvl_syntax::{Right, TypeName};
use static_rules::Setting;
use std::alloc::{AllocError, Global};
use typed_expressions::{
    Calls, Local, ResolveStop, Scope, any_input, any_twice, any_unknown, declarable, told,
};

/// Returns the number of a visible variable, or 0 for a name that is not visible.
fn number_or_zero(local: Option<Local>) -> u32
    ensures { result ≡ number_or_zero local }
{
    match local {
        Some(found) => found.number,
        None => 0,
    }
}

/// Returns the declared type of a visible variable.
fn declared_type(local: Option<Local>) -> Option<TypeName>
    ensures { result ≡ option_map (λ found. found.ty) local }
{
    match local {
        Some(found) => Some(found.ty),
        None => None,
    }
}

/// Returns the targets of an assignment to these names.
fn assigned_targets(
    alloc: Global,
    setting: Setting,
    scope: &Scope,
    names: &[Name],
) -> Result<Targets, AllocError>
    ensures shown { IfOk result (λ made. (made.types.items ≡ types_of_names scope.now names.now)
        × (made.numbers.items ≡ targets scope.now names.now)) }
    ensures asked { IfOk result (λ made. (made.unknown ≡ any_unknown scope.now names.now)
        × (made.twice ≡ any_twice names.now) × (made.undeclarable ≡ false)
        × (made.input ≡ any_input setting.inputs scope.now names.now)) }
{
    let mut types = Vec::with_capacity(alloc, names.len())?;
    let mut numbers = Vec::with_capacity(alloc, names.len())?;
    for name in names {
        types.push(declared_type(scope.find(name)))?;
        numbers.push(number_or_zero(scope.find(name)))?;
    }
    Ok(Targets {
        unknown: any_unknown(scope, names),
        twice: any_twice(names),
        undeclarable: false,
        input: any_input(setting.inputs, scope, names),
        types,
        numbers,
    })
}

/// Returns the target of a declaration.
fn declared_target(
    alloc: Global,
    scope: &Scope,
    next: u32,
    name: &Name,
    ty: TypeName,
) -> Result<Targets, AllocError>
    ensures shown { IfOk result (λ made. (made.types.items ≡ Some ty ∷ [])
        × (made.numbers.items ≡ next ∷ [])) }
    ensures asked { IfOk result (λ made. (made.unknown ≡ false)
        × (made.twice ≡ is_visible scope.now name.now)
        × (made.undeclarable ≡ is_none (declarable ty)) × (made.input ≡ false)) }
{
    Ok(Targets {
        unknown: false,
        twice: scope.sees(name),
        undeclarable: declarable(ty).is_none(),
        input: false,
        types: Vec::from_slice(alloc, &[Some(ty)])?,
        numbers: Vec::from_slice(alloc, &[next])?,
    })
}

/// Returns the act that gives a declared variable any value, or the first error of its declaration.
fn read_any(
    setting: Setting,
    scope: &Scope,
    next: u32,
    name: &Name,
    ty: TypeName,
    span: Span,
) -> Result<Act, ResolveStop>
    ensures { Gives act_of result
        (at span ((11, is_visible scope.now name.now) ∷ (12, is_none (declarable ty)) ∷ []))
        (any next setting.co (type_or_bool (declarable ty)) span) }
{
    let declared = declarable(ty);
    told(span, &[(11, scope.sees(name)), (12, declared.is_none())])?;
    Ok(Act::Any(next, setting.co, declared.unwrap_or(Ty::Bool), span))
}

/// Returns the act of a declaration, whose variable has the number `next`.
///
/// # Errors
///
/// `Fault` with the first static error in the statement, or `Memory`.
pub fn read_var(
    alloc: Global,
    setting: Setting,
    calls: &Calls,
    scope: &Scope,
    next: u32,
    name: &Name,
    ty: TypeName,
    right: &Option<Right>,
    span: Span,
) -> Result<Act, ResolveStop>
    ensures { Gives act_of result
        (value_findings next scope.now (optional_right right.now)
        ++ at span (var_rules setting calls.now next scope.now name.now ty
        (optional_right right.now)))
        (declared_act setting calls.now next scope.now ty (optional_right right.now) span) }
{
    match right {
        None => read_any(setting, scope, next, name, ty, span),
        Some(right) => {
            let target = declared_target(alloc, scope, next, name, ty)?;
            read_right(alloc, setting.co, calls, scope, next, target, right, span)
        }
    }
}

/// Returns the act of an assignment. The next variable has the number `next`.
///
/// # Errors
///
/// `Fault` with the first static error in the statement, or `Memory`.
pub fn read_assign(
    alloc: Global,
    setting: Setting,
    calls: &Calls,
    scope: &Scope,
    next: u32,
    names: &Vec<Name>,
    right: &Right,
    span: Span,
) -> Result<Act, ResolveStop>
    ensures { Gives act_of result
        (right_findings next scope.now (right_side right.now)
        ++ at span (assign_rules setting calls.now next scope.now names.now.items
        (right_side right.now)))
        (assigned calls.now next scope.now (targets scope.now names.now.items)
        (right_side right.now) span) }
{
    let all = assigned_targets(alloc, setting, scope, names)?;
    read_right(alloc, setting.co, calls, scope, next, all, right, span)
}
