//! Copies of variables.

ghost use Rattle.heyvl_acts.specs.PlainActs.{variable_of};
ghost use Rattle.std.specs.Prelude.{IfOk, map, ◌≡◌};

use heyvl_acts::VarInfo;
use std::alloc::{AllocError, Global};

/// Returns variables with the same names and types.
pub fn copied(alloc: Global, all: &[VarInfo]) -> Result<Vec<VarInfo>, AllocError>
    ensures { IfOk result (λ vars. map variable_of vars.items ≡ map variable_of all.now) }
{
    let mut vars = Vec::new(alloc);
    for variable in all {
        vars.push(copy_of(alloc, variable)?)?;
    }
    Ok(vars)
}

/// Returns a variable with the same name and type.
pub fn copy_of(alloc: Global, variable: &VarInfo) -> Result<VarInfo, AllocError>
    ensures { IfOk result (λ made. variable_of made ≡ variable_of variable.now) }
{
    Ok(VarInfo {
        name: variable.name.copy(alloc)?,
        ty: variable.ty,
    })
}
