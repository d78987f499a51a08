//! Copies of variables.

ghost use Rattle.heyvl_acts.specs.PlainActs.{procedure_of, variable_of};
ghost use Rattle.loop_encodings.specs.internal.Ready.{IsCallee, plain_variables};
ghost use Rattle.std.specs.Prelude.{IfOk, OnOk, ◌++◌, ◌≡◌};

use heyvl_acts::{TProc, VarInfo};
use std::alloc::{AllocError, Global};

/// Appends copies of the variables.
pub(crate) fn add_variables(
    alloc: Global,
    all: &[VarInfo],
    vars: &mut Vec<VarInfo>,
) -> Result<(), AllocError>
    ensures { OnOk result (plain_variables vars.new.items ≡ plain_variables vars.old.items
        ++ plain_variables all.now) }
{
    for variable in all {
        vars.push(copied(alloc, variable)?)?;
    }
    Ok(())
}

fn copied(alloc: Global, variable: &VarInfo) -> Result<VarInfo, AllocError>
    ensures { IfOk result (λ made. variable_of made ≡ variable_of variable.now) }
{
    Ok(VarInfo {
        name: variable.name.copy(alloc)?,
        ty: variable.ty,
    })
}

/// Returns the inputs of a procedure, then its outputs.
pub(crate) fn interface_of(procedure: &TProc) -> &[VarInfo]
    requires { IsCallee procedure.now }
    ensures { plain_variables result.now ≡ (procedure_of procedure.now).inputs
        ++ (procedure_of procedure.now).outputs }
{
    let count = (procedure.inputs + procedure.outputs) as usize;
    &procedure.vars[..count]
}

/// Returns the outputs of a procedure.
pub(crate) fn outputs_of(procedure: &TProc) -> &[VarInfo]
    requires { IsCallee procedure.now }
    ensures { plain_variables result.now ≡ (procedure_of procedure.now).outputs }
{
    let inputs = procedure.inputs as usize;
    &procedure.vars[inputs..inputs + procedure.outputs as usize]
}
