//! Goals of forms with binders: the inequality over states and choices, as one over states alone.

ghost use Rattle.std.specs.Prelude.{◌≡◌, ◌<◌, ◌^◌, ◌∷◌, length, IfOk};
ghost use Rattle.heylo_formula.specs.BinderNames.{binders};
ghost use Rattle.heylo_formula.specs.PlainTrees.{form_of};
ghost use Rattle.vp_generator.specs.PrenexedGoals.{IsMade, types_of_variables, names_of_variables};
ghost use Rattle.heyvl_acts.specs.Rules.{AreNamed};

use crate::limits::{DEEPEST, MOST_NODES};
use crate::numbering::prenex;
use heylo_formula::{Form, Goal, Made, Ty};
use heyvl_acts::VarInfo;
use heyvl_places::Name;
use std::alloc::{AllocError, Global};

/// Returns the goal that compares `stated`, which has no binders, with `found`, whose binders
/// become variables. Returns `Nodes` or `Depth` exactly if `found`, with its binders, has more than
/// 200,000 nodes or is more than 1,000 deep. `stated` has no limit.
pub fn goal_of_forms(
    alloc: Global,
    upper: bool,
    stated: Form,
    found: Form,
    vars: Vec<VarInfo>,
) -> Result<Made, AllocError>
    requires few { length vars.items < 2 ^ 30 }
    requires named { AreNamed (length vars.items) (binders (form_of found)) }
    ensures { IfOk result (λ made. IsMade upper (form_of stated) (form_of found) vars.items made) }
{
    if found.nodes() > MOST_NODES {
        return Ok(Made::Nodes);
    }
    if found.depth() > DEEPEST {
        return Ok(Made::Depth);
    }
    let own = vars.len() as u32;
    let without = prenex(alloc, found, vars)?;
    let types = types_of(alloc, &without.vars)?;
    let names = names_of(alloc, &without.vars)?;
    Ok(Made::Goal(Goal {
        upper,
        stated,
        found: without.form,
        vars: types,
        names,
        own,
    }))
}

/// Returns the types of the variables, in their order.
fn types_of(alloc: Global, vars: &[VarInfo]) -> Result<Vec<Ty>, AllocError>
    ensures { IfOk result (λ types. types.items ≡ types_of_variables vars.now) }
{
    let mut types = Vec::with_capacity(alloc, vars.len())?;
    for var in vars {
        types.push(var.ty)?;
    }
    Ok(types)
}

/// Returns the names of the variables, in their order.
fn names_of(alloc: Global, vars: &[VarInfo]) -> Result<Vec<Name>, AllocError>
    ensures { IfOk result (λ names. names.items ≡ names_of_variables vars.now) }
{
    let mut names = Vec::with_capacity(alloc, vars.len())?;
    for var in vars {
        names.push(var.name.copy(alloc)?)?;
    }
    Ok(names)
}
