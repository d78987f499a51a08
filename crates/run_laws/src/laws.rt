//! Laws of runs. Each function does nothing: its contract is the law.

ghost use Rattle.run_laws.specs.RuledSteps as steps;
ghost use Rattle.run_laws.specs.Growth as growth;
ghost use Rattle.run_laws.specs.Violations as violations;

/// States that, in a file that satisfies the static rules, the first configuration of a run
/// satisfies them and each step preserves this: states have the right types, items are acts that
/// satisfy the rules of the procedure that runs, and no reward decreases. No weight of a step is
/// negative, and their sum is 1.
pub fn steps_keep_the_rules()
    ensures begun { steps.BeginningsFit }
    ensures kept { steps.StepsKeepTheRules }
    ensures weights { steps.RuledStepsWeighOne }
{}

/// States that the upper sums of runs do not decrease with the number of steps, under every
/// scheduler.
pub fn sums_grow()
    ensures { growth.SumsGrow }
{}

/// States that files which differ only in the rules of their loops and in places have the same
/// sums, and so the same bounds.
pub fn rules_do_not_run()
    ensures sums { violations.SumsAreBare }
    ensures bounds { violations.RulesDoNotRun }
{}

/// States that a sum over a coproc's runs that is above its pre refutes the bound, in each file
/// that differs only in the rules of loops and in places.
pub fn violations_refute()
    ensures { violations.ViolationsRefute }
{}
