//! The first state of a run.

ghost use Rattle.heylo_formula.specs.State.{default as default_of, fit};
ghost use Rattle.heyvl_acts.specs.PlainActs.{procedure_of, variable_of};
ghost use Rattle.heyvl_acts.specs.Rules.{IsCounted};
ghost use Rattle.run_script.specs.Starts.{known_of, start_state, start_state_over, start_value};
ghost use Rattle.run_script.specs.Starts.{start_value_over, start_values, value_or};
ghost use Rattle.std.specs.Prelude.{IfOk, OnOk, drop, map, take, ◌++◌, ◌+◌, ◌≡◌};
ghost use Rattle.std.specs.Str.{bytes_eq};

use crate::scripts::Setting;
use heylo_formula::{Ty, Val};
use heyvl_acts::{TProc, VarInfo};
use std::alloc::{AllocError, Global};

/// Returns `value` if it has the type, otherwise false or 0.
fn fit(ty: Ty, value: Val) -> Val
    ensures { result ≡ fit ty value }
{
    if ty.has(&value) { value } else { ty.default() }
}

/// Returns the shown value if there is one and it has the type, otherwise false or 0.
fn value_or(ty: Ty, shown: Option<Val>) -> Val
    ensures { result ≡ value_or ty shown }
{
    match shown {
        Some(value) => fit(ty, value),
        None => ty.default(),
    }
}

/// Returns the initial value of `variable`: the one that is set, otherwise the shown one, otherwise
/// false or 0.
fn start_value_over(settings: &[Setting], variable: &VarInfo, shown: Option<Val>) -> Val
    ensures { result ≡ start_value_over settings.now (variable_of variable.now) shown }
{
    for setting in settings {
        if sets(setting, variable) {
            return fit(variable.ty, setting.value);
        }
    }
    value_or(variable.ty, shown)
}

/// Returns the initial value of `variable`: the one that is set, otherwise false or 0.
fn start_value(settings: &[Setting], variable: &VarInfo) -> Val
    ensures { result ≡ start_value settings.now (variable_of variable.now) }
{
    start_value_over(settings, variable, None)
}

/// Returns whether `setting` sets the variable.
fn sets(setting: &Setting, variable: &VarInfo) -> bool
    ensures { result ≡ bytes_eq variable.now.name setting.now.name }
{
    variable.name.as_bytes() == setting.name.as_bytes()
}

/// Returns the variables that a script may set: the inputs and the outputs.
#[tactic(auto, using(crate::proofs::FirstStates::known_front))]
pub fn known_variables(procedure: &TProc) -> &[VarInfo]
    requires { IsCounted procedure.now }
    ensures front { result.now
        ≡ take (procedure.now.inputs + procedure.now.outputs) procedure.now.vars.items }
    ensures known { map variable_of result.now ≡ known_of (procedure_of procedure.now) }
{
    let known = procedure.inputs as usize + procedure.outputs as usize;
    &procedure.vars[..known]
}

/// Returns the variables that a script may not set.
fn other_variables(procedure: &TProc) -> &[VarInfo]
    requires { IsCounted procedure.now }
    ensures { result.now ≡ drop
        (procedure.now.inputs + procedure.now.outputs) procedure.now.vars.items }
{
    let known = procedure.inputs as usize + procedure.outputs as usize;
    &procedure.vars[known..]
}

/// Appends the initial values of the variables: those that are set, otherwise false or 0.
fn add_values(
    state: &mut Vec<Val>,
    settings: &[Setting],
    variables: &[VarInfo],
) -> Result<(), AllocError>
    ensures { OnOk result (state.new.items ≡ state.old.items
        ++ map (λ x. start_value settings.now (variable_of x)) variables.now) }
{
    for variable in variables {
        state.push(start_value(settings, variable))?;
    }
    Ok(())
}

/// Appends false or 0 for each of the variables.
fn add_defaults(state: &mut Vec<Val>, variables: &[VarInfo]) -> Result<(), AllocError>
    ensures { OnOk result (state.new.items ≡ state.old.items
        ++ map (λ x. default_of x.ty) variables.now) }
{
    for variable in variables {
        state.push(variable.ty.default())?;
    }
    Ok(())
}

/// Returns the first state of a run: inputs and outputs have the values that are set, every other
/// variable is false or 0.
#[tactic(auto, using(crate::proofs::FirstStates::state_made))]
pub fn start_state(
    alloc: Global,
    procedure: &TProc,
    settings: &[Setting],
) -> Result<Vec<Val>, AllocError>
    requires { IsCounted procedure.now }
    ensures { IfOk result (λ state. state.items
        ≡ start_state (procedure_of procedure.now) settings.now) }
{
    let mut state = Vec::new(alloc);
    add_values(&mut state, settings, known_variables(procedure))?;
    add_defaults(&mut state, other_variables(procedure))?;
    Ok(state)
}

/// Appends the initial values of the variables, where `shown` has values of the first ones.
fn add_start_values(
    state: &mut Vec<Val>,
    settings: &[Setting],
    variables: &[VarInfo],
    shown: &[Val],
) -> Result<(), AllocError>
    ensures { OnOk result (state.new.items ≡ state.old.items
        ++ start_values settings.now (map variable_of variables.now) shown.now) }
{
    let mut rest = shown;
    for variable in variables {
        match rest.split_first() {
            Some((value, more)) => {
                state.push(start_value_over(settings, variable, Some(*value)))?;
                rest = more;
            }
            None => state.push(start_value_over(settings, variable, None))?,
        }
    }
    Ok(())
}

/// Returns the first state of a run for which the values of a state are shown. Each variable has
/// the value that is set, otherwise the shown value with its number, otherwise false or 0.
pub fn start_state_over(
    alloc: Global,
    procedure: &TProc,
    settings: &[Setting],
    shown: &[Val],
) -> Result<Vec<Val>, AllocError>
    requires { IsCounted procedure.now }
    ensures { IfOk result (λ state. state.items
        ≡ start_state_over (procedure_of procedure.now) settings.now shown.now) }
{
    let mut state = Vec::new(alloc);
    add_start_values(&mut state, settings, &procedure.vars, shown)?;
    Ok(state)
}
