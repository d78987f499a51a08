//! Lists of runs in which runs with equal configurations are merged.

ghost use Rattle.std.specs.Prelude.{◌≡◌, ◌∷◌, [], IfErr, IfOk, None, Some, length};
ghost use Rattle.indexmap.specs.IndexMap.{insert_entry};
ghost use Rattle.run_machine.specs.Names.{stored};
ghost use Rattle.run_machine.specs.Replies.{stored_outcomes};
ghost use Rattle.run_machine.specs.SameConfigurations.{same_stored};
ghost use Rattle.run_machine.specs.contracts.configurations.ConfigPartialEq.TheImpl as configurations;
ghost use Rattle.run_unroller.specs.Causes.{put_cause};
ghost use Rattle.run_unroller.specs.MergedLists.{held, put};
ghost use Rattle.run_unroller.specs.RunLists.{begun};
ghost use Rattle.run_unroller.specs.internal.RunViews.{runs_of};

use crate::causes::Cause;
use crate::copies::copy_config;
use heyvl_num::Frac;
use indexmap::IndexMap;
use run_machine::Config;
use std::alloc::{AllocError, Global};

/// The number of runs that a list may have.
const MOST_RUNS: usize = 65_536;

/// The weights of runs by their configurations, in the order in which these were first added.
#[derive(Drop)]
pub(crate) struct MergedRuns {
    pub(crate) entries: IndexMap<Config, Frac>,
}

impl MergedRuns {
    /// Returns the empty list.
    pub(crate) fn new(alloc: Global) -> MergedRuns
        ensures { runs_of result.entries.entries ≡ [] }
    {
        MergedRuns {
            entries: IndexMap::new(alloc),
        }
    }

    /// Returns the list of the one run that begins with `start`.
    pub(crate) fn only(alloc: Global, start: &Config) -> Result<MergedRuns, AllocError>
        ensures { IfOk result (λ runs. runs_of runs.entries.entries ≡ begun (stored start.now)) }
    {
        let mut runs = MergedRuns::new(alloc);
        let config = copy_config(alloc, start)?;
        runs.entries.insert(config, Frac::one())?;
        Ok(runs)
    }

    /// Adds a run: its weight is added to that of an equal run, or else it becomes the last one.
    /// Returns the cause that stops it if the sum overflows or the list is full.
    pub(crate) fn join(&mut self, weight: Frac, config: Config) -> Result<Option<Cause>, AllocError>
        ensures cause { IfOk result
            (λ cause. cause ≡ put_cause (length (runs_of self.old.entries.entries)) weight
            (held same_stored (stored config) (runs_of self.old.entries.entries))) }
        ensures list { IfOk result (λ cause. cause ≡ None
            → runs_of self.new.entries.entries
            ≡ put same_stored (weight, stored config) (runs_of self.old.entries.entries)) }
    {
        match self.total(&weight, &config) {
            Err(cause) => Ok(Some(cause)),
            Ok(sum) => {
                self.entries.insert(config, sum)?;
                Ok(None)
            }
        }
    }

    /// Returns the weight of a run that is added, plus that of an equal run if there is one.
    ///
    /// # Errors
    ///
    /// The cause: the sum overflows, or the list is full.
    fn total(&self, weight: &Frac, config: &Config) -> Result<Frac, Cause>
        ensures fits { IfOk result
            (λ _. put_cause (length (runs_of self.now.entries.entries)) weight.now
            (held same_stored (stored config.now) (runs_of self.now.entries.entries)) ≡ None) }
        ensures stops { IfErr result
            (λ cause. put_cause (length (runs_of self.now.entries.entries)) weight.now
            (held same_stored (stored config.now) (runs_of self.now.entries.entries))
            ≡ Some cause) }
        ensures sum { IfOk result
            (λ sum. put same_stored (weight.now, stored config.now)
            (runs_of self.now.entries.entries)
            ≡ runs_of (insert_entry (λ a b. configurations.ghosts.eq a b) self.now.entries.entries
            config.now sum)) }
    {
        match self.entries.get(config) {
            Some(held) => match held.add(weight) {
                Some(sum) => Ok(sum),
                None => Err(Cause::Bits),
            },
            None => {
                if self.entries.len() < MOST_RUNS {
                    Ok(*weight)
                } else {
                    Err(Cause::Full)
                }
            }
        }
    }

    /// Returns the runs in their order, each with its weight.
    pub(crate) fn into_runs(self, alloc: Global) -> Result<Vec<(Frac, Config)>, AllocError>
        ensures { IfOk result (λ runs. stored_outcomes runs.items ≡ runs_of self.entries.entries) }
    {
        let mut runs = Vec::with_capacity(alloc, self.entries.len())?;
        for (config, weight) in self.entries {
            runs.push((weight, config))?;
        }
        Ok(runs)
    }
}
