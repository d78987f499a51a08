//! Laws of guarded commands. Each function does nothing: its contract is the law.

ghost use Rattle.pgcl_front.specs.EqualSums.{BoundsCarryOver, SumsAreEqual};

/// If the file of a program has no static error, the upper sums of the program's runs, by the steps
/// of guarded commands, are those of the runs of its coproc: from every state, for every number of
/// steps and under every scheduler. The coproc takes one step more for each declared variable.
pub fn sums_are_equal()
    ensures { SumsAreEqual }
{}

/// If the bound of this coproc holds, each sum of the program is at most its pre.
pub fn bounds_carry_over()
    ensures { BoundsCarryOver }
{}
