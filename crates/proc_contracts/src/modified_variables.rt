//! The variables that a loop modifies.

ghost use Rattle.heyvl_acts.specs.ModifiedVariables.{modified};
ghost use Rattle.heyvl_acts.specs.PlainActs.{acts_of};
ghost use Rattle.heyvl_acts.specs.Rules.{GrowBelow};
ghost use Rattle.std.specs.Prelude.{IfOk, ℕ, ◌≡◌};

use heyvl_acts::{LoopAct, is_target};
use std::alloc::{AllocError, Global};

/// Returns the variables of the loop's scope that are a target of an assignment, a draw, a flip, a
/// havoc or a call in its body, in the order of the scope.
pub fn modified(alloc: Global, one: &LoopAct) -> Result<Vec<u32>, AllocError>
    ensures exact { IfOk result
        (λ found. found.items ≡ modified one.now.scope.items (acts_of one.now.body.items)) }
    ensures growing { IfOk result (λ found. (from below : ℕ)
        → GrowBelow from below one.now.scope.items → GrowBelow from below found.items) }
{
    let mut found = Vec::new(alloc);
    for x in &one.scope {
        if is_target(*x, &one.body) {
            found.push(*x)?;
        }
    }
    Ok(found)
}
