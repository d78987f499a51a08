//! Statements without blocks.

ghost use Rattle.heyvl_syntax.specs.Expressions.{expression};
ghost use Rattle.heyvl_syntax.specs.Statements.{optional_right, right_side};
ghost use Rattle.heyvl_acts.specs.Acts.{Act as Plain, Acts};
ghost use Rattle.typed_expressions.specs.Answers.{Gives};
ghost use Rattle.typed_right_sides.specs.Views.{acts_view};
ghost use Rattle.typed_expressions.specs.Findings.{at};
ghost use Rattle.heyvl_acts.specs.PlainActs.{act_of, variable_of};
ghost use Rattle.typed_expressions.specs.Scopes.{find, is_visible, with_local};
ghost use Rattle.static_rules.specs.StatementActs.{assigned, declared_act, havocs, number_or_zero};
ghost use Rattle.static_rules.specs.StatementActs.{targets, type_of_local};
ghost use Rattle.typed_expressions.specs.Values.{form};
ghost use Rattle.static_rules.specs.RightSides.{right_findings};
ghost use Rattle.static_rules.specs.StatementRules.{assign_rules, check_rules, checks_against};
ghost use Rattle.static_rules.specs.StatementRules.{havoc_rules, havocs_against, reward_rules};
ghost use Rattle.static_rules.specs.StatementRules.{validate_rules, validates_against};
ghost use Rattle.static_rules.specs.StatementRules.{value_findings, var_rules};
ghost use Rattle.typed_expressions.specs.TypedExpressions.{closed_findings, elaborate};
ghost use Rattle.typed_expressions.specs.DeclaredVariables.{declared, type_or_bool};
ghost use Rattle.typed_expressions.specs.Table.{declarable};
ghost use Rattle.std.specs.Prelude.{◌++◌, ◌<◌, ◌^◌, ◌≡◌, ◌∷◌, [], IfOk, OnOk, false, length, map};
ghost use Rattle.std.specs.Prelude.{take};

use heylo_formula::Ty;
use heyvl_acts::{Act, VarInfo};
use heyvl_places::{CheckKind, Name, Span};
use heyvl_syntax::{Expr, Right, TypeName};
use static_rules::Setting;
use std::alloc::{AllocError, Global};
use typed_expressions::{
    Calls, Demand, Local, ResolveStop, Scope, any_input, any_twice, any_unknown, declarable, form,
    read, told,
};
use typed_right_sides::{read_assign, read_var};

/// Returns the list of one act.
pub(crate) fn single(alloc: Global, act: Act) -> Result<Vec<Act>, AllocError>
    ensures { IfOk result (λ acts. acts_view acts ≡ Acts.next (act_of act) Acts.done) }
{
    let mut acts = Vec::with_capacity(alloc, 1)?;
    acts.push(act)?;
    Ok(acts)
}

/// Returns the number of the next variable.
pub(crate) fn next_number(vars: &[VarInfo]) -> u32
    requires { length vars.now < 2 ^ 32 }
    ensures { result ≡ length vars.now }
{
    vars.len() as u32
}

/// Returns true for an `assume` in a coproc, and for a `coassume` in a proc.
fn checks_against(co: bool, kind: CheckKind) -> bool
    ensures { result ≡ checks_against co kind }
{
    match kind {
        CheckKind::Assert | CheckKind::CoAssert => false,
        CheckKind::Assume => co,
        CheckKind::CoAssume => !co,
    }
}

/// Returns the act of a check, or the first error in it. `bound` says that one against the
/// direction may not occur at this place.
pub(crate) fn read_check(
    alloc: Global,
    setting: Setting,
    bound: bool,
    scope: &Scope,
    vars: &[VarInfo],
    kind: CheckKind,
    claim: &Expr,
    span: Span,
) -> Result<Vec<Act>, ResolveStop>
    requires { length vars.now < 2 ^ 32 }
    ensures { Gives acts_view result
        (closed_findings Demand.Formula (length vars.now) scope.now (expression claim.now)
        ++ at span (check_rules setting bound kind))
        (Acts.next (Plain.check kind
        (form (elaborate (length vars.now) scope.now (expression claim.now))) span) Acts.done) }
{
    let claim = read(alloc, scope, next_number(vars), claim, Demand::Formula)?;
    told(span, &[(17, checks_against(setting.co, kind) && bound)])?;
    Ok(single(alloc, Act::Check(kind, form(claim), span))?)
}

/// Returns the act of a validation, or its error. `bound` says that one against the direction may
/// not occur at this place.
pub(crate) fn read_validate(
    alloc: Global,
    setting: Setting,
    bound: bool,
    co: bool,
    span: Span,
) -> Result<Vec<Act>, ResolveStop>
    ensures { Gives acts_view result (at span (validate_rules setting bound co))
        (Acts.next (Plain.validate co span) Acts.done) }
{
    told(span, &[(17, setting.co != co && bound)])?;
    Ok(single(alloc, Act::Validate(co, span))?)
}

/// Returns the act of a reward, or the first error in it.
pub(crate) fn read_reward(
    alloc: Global,
    setting: Setting,
    scope: &Scope,
    vars: &[VarInfo],
    amount: &Expr,
    span: Span,
) -> Result<Vec<Act>, ResolveStop>
    requires { length vars.now < 2 ^ 32 }
    ensures { Gives acts_view result
        (closed_findings Demand.Formula (length vars.now) scope.now (expression amount.now)
        ++ at span (reward_rules setting))
        (Acts.next (Plain.reward
        (form (elaborate (length vars.now) scope.now (expression amount.now))) span) Acts.done) }
{
    let amount = read(alloc, scope, next_number(vars), amount, Demand::Formula)?;
    told(span, &[(20, setting.weak)])?;
    Ok(single(alloc, Act::Reward(form(amount), span))?)
}

/// Returns the type of a variable with this declared type; `Bool` if it may not have it.
fn type_or_bool(ty: TypeName) -> Ty
    ensures { result ≡ type_or_bool (declarable ty) }
{
    match declarable(ty) {
        Some(ty) => ty,
        None => Ty::Bool,
    }
}

/// Returns the act that gives the variable with this name any value.
fn arbitrary(scope: &Scope, co: bool, name: &Name, span: Span) -> Act
    ensures { act_of result ≡ Plain.any (number_or_zero (find scope.now name.now)) co
        (type_of_local (find scope.now name.now)) span }
{
    match scope.find(name) {
        Some(local) => Act::Any(local.number, co, type_or_bool(local.ty), span),
        None => Act::Any(0, co, Ty::Bool, span),
    }
}

/// Returns the acts that give each of the named variables any value, one after the other.
fn havocs(
    alloc: Global,
    scope: &Scope,
    co: bool,
    names: &[Name],
    span: Span,
) -> Result<Vec<Act>, AllocError>
    ensures { IfOk result (λ acts. acts_view acts ≡ havocs scope.now co names.now span) }
{
    let mut acts = Vec::with_capacity(alloc, names.len())?;
    for name in names {
        acts.push(arbitrary(scope, co, name, span))?;
    }
    Ok(acts)
}

/// Returns the acts of a havoc, or its first error.
pub(crate) fn read_havoc(
    alloc: Global,
    setting: Setting,
    scope: &Scope,
    co: bool,
    names: &[Name],
    span: Span,
) -> Result<Vec<Act>, ResolveStop>
    ensures { Gives acts_view result (at span (havoc_rules setting scope.now co names.now))
        (havocs scope.now co names.now span) }
{
    told(
        span,
        &[
            (10, any_unknown(scope, names)),
            (11, any_twice(names)),
            (13, any_input(setting.inputs, scope, names)),
            (17, setting.co != co),
        ],
    )?;
    Ok(havocs(alloc, scope, co, names, span)?)
}

/// Adds a variable, which is visible from here on.
pub(crate) fn declare(
    alloc: Global,
    scope: &mut Scope,
    vars: &mut Vec<VarInfo>,
    next: u32,
    name: &Name,
    ty: TypeName,
) -> Result<(), AllocError>
    ensures shown { OnOk result
        (scope.new ≡ with_local name.now (record { number = next; ty = ty }) scope.old) }
    ensures last { OnOk result (is_visible scope.old name.now ≡ false
        → take (length scope.old) scope.new ≡ scope.old) }
    ensures listed { OnOk result (map variable_of vars.new.items ≡ map variable_of vars.old.items
        ++ declared name.now ty ∷ []) }
{
    scope.declare(alloc, name, Local { number: next, ty })?;
    vars.push(VarInfo {
        name: name.copy(alloc)?,
        ty: type_or_bool(ty),
    })?;
    Ok(())
}

/// Returns the act of a declaration, or the first error in it. Its variable is visible from here
/// on.
pub(crate) fn read_declaration(
    alloc: Global,
    setting: Setting,
    calls: &Calls,
    scope: &mut Scope,
    vars: &mut Vec<VarInfo>,
    name: &Name,
    ty: TypeName,
    right: &Option<Right>,
    span: Span,
) -> Result<Vec<Act>, ResolveStop>
    requires { length vars.old.items < 2 ^ 32 }
    ensures gives { Gives acts_view result
        (value_findings (length vars.old.items) scope.old (optional_right right.now)
        ++ at span (var_rules setting calls.now (length vars.old.items) scope.old name.now ty
        (optional_right right.now)))
        (Acts.next (declared_act setting calls.now (length vars.old.items) scope.old ty
        (optional_right right.now) span) Acts.done) }
    ensures shown { OnOk result
        (scope.new ≡ with_local name.now
        (record { number = length vars.old.items; ty = ty }) scope.old) }
    ensures kept { OnOk result (take (length scope.old) scope.new ≡ scope.old) }
    ensures listed { OnOk result (map variable_of vars.new.items ≡ map variable_of vars.old.items
        ++ declared name.now ty ∷ []) }
{
    let next = next_number(vars);
    let act = read_var(alloc, setting, calls, scope, next, name, ty, right, span)?;
    declare(alloc, scope, vars, next, name, ty)?;
    Ok(single(alloc, act)?)
}

/// Returns the act of an assignment, or the first error in it.
pub(crate) fn read_targets(
    alloc: Global,
    setting: Setting,
    calls: &Calls,
    scope: &Scope,
    vars: &[VarInfo],
    names: &Vec<Name>,
    right: &Right,
    span: Span,
) -> Result<Vec<Act>, ResolveStop>
    requires { length vars.now < 2 ^ 32 }
    ensures { Gives acts_view result
        (right_findings (length vars.now) scope.now (right_side right.now)
        ++ at span (assign_rules setting calls.now (length vars.now) scope.now names.now.items
        (right_side right.now)))
        (Acts.next (assigned calls.now (length vars.now) scope.now
        (targets scope.now names.now.items) (right_side right.now) span) Acts.done) }
{
    let next = next_number(vars);
    let act = read_assign(alloc, setting, calls, scope, next, names, right, span)?;
    Ok(single(alloc, act)?)
}
