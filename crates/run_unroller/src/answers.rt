//! The results of unrolling.

use heyvl_num::{Ext, Frac};

/// Weighted sums over the runs.
#[derive(Debug, Drop)]
pub struct Sums {
    /// The post over the terminated runs.
    pub post: Ext,
    /// The rewards over all runs.
    pub reward: Ext,
    /// The mass not yet terminated.
    pub running: Frac,
    /// The expected iterations of each loop of the procedure that was started.
    pub turns: Vec<Frac>,
}

/// The sums, or the limit that stopped the runs and the number of the step. Steps are numbered from
/// 1, and adding the sums counts as the step after the last.
#[derive(Debug, Drop)]
pub enum Unrolled {
    Sums(Sums),
    /// The runs have more than 65,536 different configurations.
    Full(u32),
    /// The state and all frames of a configuration have more than 512 values.
    Deep(u32),
    /// A number overflows.
    Bits(u32),
}
