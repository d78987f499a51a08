//! Bounds over the inputs of a procedure that another procedure gives.

ghost use Rattle.heyvl_acts.specs.Acts.{type_list};
ghost use Rattle.heyvl_acts.specs.PlainActs.{procedure_of, variable_of};
ghost use Rattle.heyvl_acts.specs.Rules.{IsCounted};
ghost use Rattle.lower_goals.specs.RemainderPairs.{IsInputBound};
ghost use Rattle.std.specs.Prelude.{None, false, map, true, ◌≡◌};

use heyvl_acts::{TProc, VarInfo};

/// Returns whether `bound` is a coproc without body and outputs whose inputs have the types of
/// those of `procedure`, in order.
pub(crate) fn is_input_bound(procedure: &TProc, bound: &TProc) -> bool
    requires first { IsCounted procedure.now }
    requires second { IsCounted bound.now }
    ensures yes { result ≡ true
        → IsInputBound (procedure_of procedure.now) (procedure_of bound.now) }
    ensures no { result ≡ false → IsInputBound (procedure_of procedure.now) (procedure_of bound.now)
        → ⊥ }
{
    is_bare_coproc(bound) && same_types(inputs_of(procedure), inputs_of(bound))
}

fn is_bare_coproc(bound: &TProc) -> bool
    ensures yes { result ≡ true → (bound.now.co ≡ true)
        × ((bound.now.body ≡ None) × (bound.now.outputs ≡ 0)) }
    ensures no { result ≡ false → (bound.now.co ≡ true)
        × ((bound.now.body ≡ None) × (bound.now.outputs ≡ 0)) → ⊥ }
{
    bound.co && bound.body.is_none() && bound.outputs == 0
}

/// Returns the inputs of a procedure.
fn inputs_of(procedure: &TProc) -> &[VarInfo]
    requires { IsCounted procedure.now }
    ensures { map variable_of result.now ≡ (procedure_of procedure.now).inputs }
{
    let count = procedure.inputs as usize;
    &procedure.vars[..count]
}

/// Returns whether the variables have the same types, in order.
fn same_types(first: &[VarInfo], second: &[VarInfo]) -> bool
    ensures yes { result ≡ true
        → type_list (map variable_of second.now) ≡ type_list (map variable_of first.now) }
    ensures no { result ≡ false
        → type_list (map variable_of second.now) ≡ type_list (map variable_of first.now) → ⊥ }
{
    if first.len() != second.len() {
        return false;
    }
    for place in 0..first.len() {
        if first[place].ty != second[place].ty {
            return false;
        }
    }
    true
}
