//! The step of a variable that takes any value of its type.

ghost use Rattle.std.specs.Prelude.{◌≡◌, ◌<◌, ◌^◌, IfOk, true};
ghost use Rattle.heylo_formula.specs.State.{fit};
ghost use Rattle.run_machine.specs.Names.{stored, decision_of};
ghost use Rattle.run_machine.specs.Step.{value_of};
ghost use Rattle.run_machine.specs.Replies.{reply_of, replied, surely};
ghost use Rattle.run_machine.specs.StoredMoves.{asked, assigned};

use crate::configurations::{Config, Decide, Stepped};
use crate::limits::for_sure;
use crate::plain_steps::with_value;
use heylo_formula::{Ty, Val};
use std::alloc::{AllocError, Global};

pub(crate) fn any_step(
    alloc: Global,
    config: &Config,
    x: u32,
    ty: Ty,
    decision: Option<&Decide>,
) -> Result<Stepped, AllocError>
    requires { config.now.made < 2 ^ 31 }
    ensures { IfOk result (λ stepped. reply_of stepped
        ≡ replied true
        (surely (asked
        (assigned (stored config.now) x (fit ty (value_of (decision_of decision.entry))))))) }
{
    let mut next = with_value(alloc, config, x, fitting(ty, decision))?;
    next.made += 1;
    for_sure(alloc, next)
}

/// Returns the decided value if it has the type, otherwise false or 0.
fn fitting(ty: Ty, decision: Option<&Decide>) -> Val
    ensures { result ≡ fit ty (value_of (decision_of decision.entry)) }
{
    match decision {
        None => ty.default(),
        Some(Decide::Left) => ty.default(),
        Some(Decide::Right) => ty.default(),
        Some(Decide::Give(value)) => if ty.has(value) { *value } else { ty.default() },
    }
}
