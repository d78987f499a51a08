//! Upper goals whose stated bound has binders.

ghost use Rattle.heylo_formula.specs.BinderNames.{binders};
ghost use Rattle.heylo_formula.specs.Goals.{goal_of};
ghost use Rattle.heylo_formula.specs.PlainTrees.{form_of};
ghost use Rattle.heyvl_acts.specs.PlainActs.{variable_of};
ghost use Rattle.heyvl_acts.specs.Rules.{AreNamed};
ghost use Rattle.made_goals.specs.UpperGoals.{upper_goal};
ghost use Rattle.std.specs.Prelude.{IfOk, length, map, ◌+◌, ◌<◌, ◌^◌, ◌≡◌};
ghost use Rattle.vp_generator.specs.PrenexedGoals.{names_of_variables, types_of_variables};

use heylo_formula::{Form, Goal, Ty};
use heyvl_acts::VarInfo;
use heyvl_places::Name;
use std::alloc::{AllocError, Global};
use vp_generator::prenex;

/// Returns the goal over the variables `vars` that `stated` is at least `found`. Each binder of
/// `stated` gets a separate variable, and `found` has no binders.
pub fn upper_goal(
    alloc: Global,
    stated: Form,
    found: Form,
    vars: Vec<VarInfo>,
) -> Result<Goal, AllocError>
    requires few { length vars.items + length (binders (form_of stated)) < 2 ^ 31 }
    requires named { AreNamed (length vars.items) (binders (form_of stated)) }
    ensures { IfOk result (λ goal. goal_of goal
        ≡ upper_goal (map variable_of vars.items) (form_of stated) (form_of found)) }
{
    let own = vars.len() as u32;
    let without = prenex(alloc, stated, vars)?;
    let types = types_of(alloc, &without.vars)?;
    let names = names_of(alloc, &without.vars)?;
    Ok(Goal {
        upper: true,
        stated: without.form,
        found,
        vars: types,
        names,
        own,
    })
}

/// Returns the types of variables, by number.
fn types_of(alloc: Global, vars: &[VarInfo]) -> Result<Vec<Ty>, AllocError>
    ensures { IfOk result (λ types. types.items ≡ types_of_variables vars.now) }
{
    let mut types = Vec::with_capacity(alloc, vars.len())?;
    for var in vars {
        types.push(var.ty)?;
    }
    Ok(types)
}

/// Returns the names of variables, by number.
fn names_of(alloc: Global, vars: &[VarInfo]) -> Result<Vec<Name>, AllocError>
    ensures { IfOk result (λ names. names.items ≡ names_of_variables vars.now) }
{
    let mut names = Vec::with_capacity(alloc, vars.len())?;
    for var in vars {
        names.push(var.name.copy(alloc)?)?;
    }
    Ok(names)
}
