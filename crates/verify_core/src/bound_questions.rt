//! The formulas of a proc with `@wlp` that have to be at most 1.

ghost use Rattle.act_walks.specs.Lent.{lent};
ghost use Rattle.heyvl_acts.specs.PlainActs.{procedure_of};
ghost use Rattle.heylo_formula.specs.PlainTrees.{form_of};
ghost use Rattle.heylo_formula.specs.declared.goals.GoalId.TheVariants.{Invariant};
ghost use Rattle.std.specs.Prelude.{IfOk, OnOk, [], map, ◌++◌, ◌≡◌, ◌∷◌};
ghost use Rattle.verify_core.specs.internal.BoundQuestions.{asked, asked_invariants, plain};

use act_walks::in_order;
use heylo_formula::{Form, GoalId};
use heyvl_acts::{Act, LoopAct, TProc};
use std::alloc::{AllocError, Global};

/// A formula that has to be at most 1, and the name of its goal.
#[derive(Drop)]
pub(crate) struct Asked {
    pub(crate) id: GoalId,
    pub(crate) form: Form,
}

/// Returns the pre and the post of a procedure, and the invariants of its loops in the order of the
/// text.
pub(crate) fn asked_of(alloc: Global, procedure: &TProc) -> Result<Vec<Asked>, AllocError>
    ensures { IfOk result (λ all. map plain all.items ≡ asked (procedure_of procedure.now)) }
{
    let mut all = Vec::new(alloc);
    let pre = procedure.pre.copy(alloc)?;
    all.push(Asked {
        id: GoalId::Pre,
        form: pre,
    })?;
    let post = procedure.post.copy(alloc)?;
    all.push(Asked {
        id: GoalId::Post,
        form: post,
    })?;
    let acts = in_order(alloc, procedure)?;
    add_invariants(alloc, &mut all, &acts)?;
    Ok(all)
}

/// Appends the invariants of the loops among the acts.
fn add_invariants(alloc: Global, all: &mut Vec<Asked>, acts: &[&Act]) -> Result<(), AllocError>
    ensures { OnOk result (map plain all.new.items ≡ map plain all.old.items
        ++ asked_invariants (map lent acts.now)) }
{
    for act in acts {
        if let Act::Loop(one) = act {
            add_invariant(alloc, all, one)?;
        }
    }
    Ok(())
}

fn add_invariant(alloc: Global, all: &mut Vec<Asked>, one: &LoopAct) -> Result<(), AllocError>
    ensures { OnOk result (map plain all.new.items ≡ map plain all.old.items
        ++ (Invariant one.now.number, form_of one.now.inv) ∷ []) }
{
    let form = one.inv.copy(alloc)?;
    all.push(Asked {
        id: GoalId::Invariant(one.number),
        form,
    })?;
    Ok(())
}
