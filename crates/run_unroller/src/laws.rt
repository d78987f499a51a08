//! Laws of unrolled runs. Each function's contract is the law.

ghost use Rattle.run_unroller.specs.FullLists.{FullListsAreLong, OtherListsAreShort};
ghost use Rattle.run_unroller.specs.ScriptedGrowth as growth;
ghost use Rattle.run_unroller.specs.UnrollLaws as law;

use quant_algebra::exact_values_are_meant;

/// States that sums over the list after some steps are those over the runs of the definition, under
/// the script's scheduler. Runs with equal configurations are merged in the list.
pub fn lists_are_runs()
    ensures { law.ListsAreRuns }
{}

/// States that the totals of a list of runs are the sums of the definition.
pub fn totals_are_sums()
    ensures { law.TotalsAreSums }
{
    exact_values_are_meant();
}

/// States that the sums of unrolling are those over the runs under the script's scheduler.
pub fn unrolled_sums_are_meant()
    ensures { law.UnrolledSumsAreMeant }
{
    totals_are_sums();
}

/// States that the sums of a script's runs do not decrease with the number of steps.
pub fn scripted_sums_grow()
    ensures { growth.ScriptedSumsGrow }
{}

/// States that the merged list after a step has more than 65,536 runs if `Full` stops the step, and
/// at most 65,536 if nothing stops it.
pub fn full_lists_are_long()
    ensures long { FullListsAreLong }
    ensures short { OtherListsAreShort }
{}
