//! Acts of encodings: checks of a bound, and acts under a condition. `up` is true in a coproc and
//! false in a proc.

ghost use Rattle.heylo_formula.specs.PlainTrees.{cond_of, form_of};
ghost use Rattle.heyvl_acts.specs.Acts.Act.{check as plain_check};
ghost use Rattle.heyvl_acts.specs.PlainActs.{act_of, acts_of};
ghost use Rattle.k_induction.specs.Copies.{if_holds, may, meets, must};
ghost use Rattle.std.specs.Prelude.{IfOk, ◌≡◌};

use heylo_formula::{Cond, Form};
use heyvl_acts::Act;
use heyvl_places::{CheckKind, Span};
use std::alloc::{AllocError, Global};

/// Returns the check that proves a bound.
pub fn must(up: bool) -> CheckKind
    ensures { result ≡ must up }
{
    if up {
        CheckKind::CoAssert
    } else {
        CheckKind::Assert
    }
}

/// Returns the check that takes a bound as given.
pub fn may(up: bool) -> CheckKind
    ensures { result ≡ may up }
{
    if up {
        CheckKind::CoAssume
    } else {
        CheckKind::Assume
    }
}

/// Returns the check that takes the better of a bound and what follows.
pub fn meets(up: bool) -> CheckKind
    ensures { result ≡ meets up }
{
    if up {
        CheckKind::Assert
    } else {
        CheckKind::CoAssert
    }
}

/// Returns the check of a copy of the formula.
pub fn stated(alloc: Global, kind: CheckKind, form: &Form, span: Span) -> Result<Act, AllocError>
    ensures { IfOk result (λ made. act_of made ≡ plain_check kind (form_of form.now) span) }
{
    Ok(Act::Check(kind, form.copy(alloc)?, span))
}

/// Returns the acts if the condition holds, otherwise nothing.
pub fn if_holds(alloc: Global, guard: &Cond, acts: Vec<Act>, span: Span) -> Result<Act, AllocError>
    ensures { IfOk result (λ made. act_of made
        ≡ if_holds span (cond_of guard.now) (acts_of acts.items)) }
{
    let arms = vec![in alloc; (guard.copy(alloc)?, acts)]?;
    Ok(Act::If(arms, Vec::new(alloc), span))
}
