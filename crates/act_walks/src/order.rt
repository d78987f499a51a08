//! The acts of a body in the order of the text.

ghost use Rattle.act_walks.specs.Lent.{lent};
ghost use Rattle.heyvl_acts.specs.Acts.{acts_in};
ghost use Rattle.heyvl_acts.specs.Places.{in_order, inside};
ghost use Rattle.heyvl_acts.specs.PlainActs.{act_of, acts_of, procedure_of};
ghost use Rattle.std.specs.Prelude.{IfOk, OnOk, map, ◌++◌, ◌≡◌};

use heyvl_acts::{Act, TProc};
use std::alloc::{AllocError, Global};

/// Returns the acts of the procedure's body in the order of the text, where an act precedes the
/// acts in it. The list is empty if there is no body.
pub fn in_order<'a>(alloc: Global, procedure: &'a TProc) -> Result<Vec<&'a Act>, AllocError>
    ensures { IfOk result (λ all. map lent all.items
        ≡ in_order (acts_in (procedure_of procedure.now).body)) }
{
    let mut all = Vec::new(alloc);
    if let Some(acts) = &procedure.body {
        add_all(&mut all, acts)?;
    }
    Ok(all)
}

/// Appends the acts and the acts in them.
#[cycle(ordering)]
fn add_all<'a>(all: &mut Vec<&'a Act>, acts: &'a [Act]) -> Result<(), AllocError>
    ensures { OnOk result (map lent all.new.items ≡ map lent all.old.items
        ++ in_order (acts_of acts.now)) }
{
    for act in acts {
        all.push(act)?;
        add_inside(all, act)?;
    }
    Ok(())
}

/// Appends the acts in an act.
#[cycle(ordering)]
fn add_inside<'a>(all: &mut Vec<&'a Act>, act: &'a Act) -> Result<(), AllocError>
    ensures { OnOk result (map lent all.new.items ≡ map lent all.old.items
        ++ inside (act_of act.now)) }
{
    match act {
        Act::If(arms, other, _) => {
            for arm in arms {
                add_all(all, &arm.1)?;
            }
            add_all(all, other)
        }
        Act::Pick(_, left, right, _) => {
            add_all(all, left)?;
            add_all(all, right)
        }
        Act::Loop(one) => add_all(all, &one.body),
        _ => Ok(()),
    }
}
