//! Expected iterations of loops.

ghost use Rattle.std.specs.Prelude.{◌≡◌, IfOk, option_map, pos};
ghost use Prim.Native.Nat.{suc};
ghost use Rattle.heyvl_num.specs.Rational.{ratio};
ghost use Rattle.run_machine.specs.Names.{turns_of};
ghost use Rattle.run_machine.specs.Replies.{stored_outcomes};
ghost use Rattle.run_unroller.specs.Totals.{all_turns as all_turns_of, turns_total};

use crate::numbers::whole;
use heyvl_num::Frac;
use run_machine::Config;
use std::alloc::{AllocError, Global};

/// Returns the expected iterations of the first `loops` loops, or `None` if a number overflows.
pub(crate) fn all_turns(
    alloc: Global,
    loops: u32,
    runs: &[(Frac, Config)],
) -> Result<Option<Vec<Frac>>, AllocError>
    ensures { IfOk result (λ turns. option_map (λ ts. ts.items) turns
        ≡ all_turns_of loops (stored_outcomes runs.now)) }
{
    let mut turns = Vec::new(alloc);
    for index in 0..loops {
        match turns_sum(index, runs) {
            None => return Ok(None),
            Some(sum) => turns.push(sum)?,
        }
    }
    Ok(Some(turns))
}

/// Returns the expected iterations of the loop number `index` + 1.
fn turns_sum(index: u32, runs: &[(Frac, Config)]) -> Option<Frac>
    ensures { result ≡ turns_total (suc index) (stored_outcomes runs.now) }
{
    let mut sum = Frac::zero();
    for run in runs {
        let product = run.0.mul(&turns_at(&run.1, index))?;
        sum = sum.add(&product)?;
    }
    Some(sum)
}

/// Returns the iterations of the loop number `index` + 1 in one run, or 0 if there is no such loop.
fn turns_at(config: &Config, index: u32) -> Frac
    ensures { result ≡ ratio (pos (turns_of config.now.turns.items (suc index))) 1 }
{
    match config.turns.get(index as usize) {
        None => whole(0),
        Some(turns) => whole(*turns),
    }
}
