//! The answers of a search for a violation.

use heyvl_num::Ext;
use run_unroller::Unrolled;

/// The comparison of the sums of a script's runs with the pre of the procedure in the first state.
/// Each sum is the reward plus the post.
#[derive(Debug, Drop)]
pub enum Refuted {
    /// The sum after this number of steps is above the pre, and the sum after one step fewer is
    /// not: the steps, the sum, the pre.
    Violation(u32, Ext, Ext),
    /// The sum after all steps is not above the pre, so no sum before it is: the sum, the pre.
    Within(Ext, Ext),
    /// The step that is stopped first, and the result of unrolling; the sum before it is not above
    /// the pre. Or the number of steps after which a number overflows that the comparison needs,
    /// and `Bits` at the step after.
    Stopped(u32, Unrolled),
}
