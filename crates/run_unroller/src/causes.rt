//! Causes that stop a list of runs.

use crate::merged_runs::MergedRuns;

/// A cause that stops a list of runs.
#[derive(Clone, Copy, Debug)]
pub(crate) enum Cause {
    /// The list has more than 65,536 runs.
    Full,
    /// A configuration has more than 512 values.
    Deep,
    /// A number overflows.
    Bits,
}

/// The list after a step, or the cause that stops the step.
#[derive(Drop)]
pub(crate) enum Grown {
    Runs(MergedRuns),
    Stopped(Cause),
}

/// The list after some steps, or the cause that stops one of them, and the step's number.
#[derive(Drop)]
pub(crate) enum Reached {
    Runs(MergedRuns),
    Stopped(Cause, u32),
}
