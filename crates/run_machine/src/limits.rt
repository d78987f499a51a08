//! The limit on the values of a configuration.

ghost use Rattle.std.specs.Prelude.{◌≡◌, IfOk, nat_lt, true};
ghost use Rattle.run_machine.specs.Names.{stored};
ghost use Rattle.run_machine.specs.Replies.{reply_of, replied, stored_outcomes, stored_values};
ghost use Rattle.run_machine.specs.Replies.{surely};

use crate::configurations::{Config, Stepped};
use heyvl_num::Frac;
use std::alloc::{AllocError, Global};

/// The number of values that the state and all frames may have together.
const MOST_VALUES: usize = 512;

/// Returns whether the state and all frames have more values than `MOST_VALUES`.
fn is_deep(config: &Config) -> bool
    ensures { result ≡ nat_lt 512 (stored_values (stored config.now)) }
{
    if config.state.len() > MOST_VALUES {
        return true;
    }
    let mut room = MOST_VALUES - config.state.len();
    for frame in &config.frames {
        if frame.state.len() > room {
            return true;
        }
        room -= frame.state.len();
    }
    false
}

/// Returns the outcomes, or `Deep` if one of them has more than 512 values.
pub(crate) fn limited(outcomes: Vec<(Frac, Config)>) -> Stepped
    ensures { reply_of result ≡ replied true (stored_outcomes outcomes.items) }
{
    for outcome in &outcomes {
        if is_deep(&outcome.1) {
            return Stepped::Deep;
        }
    }
    Stepped::Next(outcomes)
}

/// Returns the one outcome `next` with the probability 1, or `Deep` if it has more than 512 values.
pub(crate) fn for_sure(alloc: Global, next: Config) -> Result<Stepped, AllocError>
    ensures { IfOk result (λ stepped. reply_of stepped ≡ replied true (surely (stored next))) }
{
    let mut outcomes = Vec::new(alloc);
    outcomes.push((Frac::one(), next))?;
    Ok(limited(outcomes))
}
