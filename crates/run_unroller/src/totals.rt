//! The sums over a list of runs.

ghost use Rattle.std.specs.Prelude.{◌≡◌, IfOk, option_map};
ghost use Rattle.heyvl_acts.specs.Acts.{procedure_at};
ghost use Rattle.heyvl_acts.specs.PlainActs.{procedures_of};
ghost use Rattle.run_machine.specs.Replies.{stored_outcomes};
ghost use Rattle.run_unroller.specs.Totals.{totals};
ghost use Rattle.run_unroller.specs.Unrolling.{totals_of};

use crate::answers::Sums;
use crate::turns::all_turns;
use crate::values::{post_sum, reward_sum};
use crate::weights::running_weight;
use heyvl_acts::Typed;
use heyvl_num::Frac;
use run_machine::Config;
use std::alloc::{AllocError, Global};

/// Returns the sums over runs of the procedure `p`, or `None` if a number overflows.
pub(crate) fn sums(
    alloc: Global,
    typed: &Typed,
    p: u32,
    runs: &[(Frac, Config)],
) -> Result<Option<Sums>, AllocError>
    ensures { IfOk result (λ sums. option_map totals_of sums
        ≡ totals (procedure_at (procedures_of typed.now) p) (stored_outcomes runs.now)) }
{
    let Some(post) = post_sum(typed, p, runs) else {
        return Ok(None);
    };
    let Some(reward) = reward_sum(runs) else {
        return Ok(None);
    };
    let Some(running) = running_weight(runs) else {
        return Ok(None);
    };
    match all_turns(alloc, loops_of(typed, p), runs)? {
        None => Ok(None),
        Some(turns) => Ok(Some(Sums {
            post,
            reward,
            running,
            turns,
        })),
    }
}

/// Returns the number of loops of the procedure `p`, or 0 if there is none.
fn loops_of(typed: &Typed, p: u32) -> u32
    ensures { result ≡ (procedure_at (procedures_of typed.now) p).loops }
{
    match typed.procs.get(p as usize) {
        None => 0,
        Some(procedure) => procedure.loops,
    }
}
