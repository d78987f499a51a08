//! Laws of places. Each function does nothing: its contract is the law.

ghost use Rattle.placeless_files.specs.PlacelessRuns.{BoundsIgnorePlaces, ProceduresIgnorePlaces};
ghost use Rattle.placeless_files.specs.PlacelessRuns.{StatesIgnorePlaces, SumsIgnorePlaces};

use run_laws::rules_do_not_run;

/// Files that differ only in places have the same typed procedures, apart from the rules of loops
/// and from places. So each procedure has the same states in both, its runs have the same sums, and
/// its bound holds in one if it holds in the other.
pub fn places_do_not_run()
    ensures procedures { ProceduresIgnorePlaces }
    ensures states { StatesIgnorePlaces }
    ensures sums { SumsIgnorePlaces }
    ensures bounds { BoundsIgnorePlaces }
{
    rules_do_not_run();
}
