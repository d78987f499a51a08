//! The law that a violated bound is never reported as verified.

ghost use Rattle.tool_laws.specs.Refutations.{BrokenBoundsAreNeverVerified};

use resolved_laws::resolved_files_meet_the_rules;
use verify_core::answers_keep_promises;

/// In a file without an error, no answers by decisions or by certificates report a procedure as
/// verified whose bound does not hold.
pub fn broken_bounds_are_never_verified()
    ensures { BrokenBoundsAreNeverVerified }
{
    resolved_files_meet_the_rules();
    answers_keep_promises();
}
