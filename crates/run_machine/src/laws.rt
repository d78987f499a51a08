//! Laws of steps and runs. Each function does nothing: its contract is the law.

ghost use Rattle.run_machine.specs.RunLaws as law;
ghost use Rattle.run_machine.specs.SameConfigurations as same;
ghost use Rattle.run_machine.specs.StoredLaws as stored;

/// States that the weights of a step have the sum 1, if those of a draw do.
pub fn steps_weigh_one()
    ensures { law.StepsWeighOne }
{}

/// States that a configuration and a decision determine the step, and that a decision that is
/// missing, or has another type than the one asked for, means the left side, false or 0.
pub fn decisions_decide_steps()
    ensures determined { law.StepsAreDetermined }
    ensures picks { law.PicksGoLeft }
    ensures ill_typed { law.IllTypedIsDefault }
    ensures missing { law.MissingIsDefault }
    ensures anys { law.AnysAreOuts }
{}

/// States that runs of more steps continue the runs of fewer steps, and that a terminated
/// configuration stays as it is.
pub fn runs_continue()
    ensures continued { law.RunsContinue }
    ensures ended { law.EndedStays }
{}

/// States that stored configurations step as the definition does: the first configuration is that
/// of the definition and, in a file that satisfies the static rules, so is the step of each
/// configuration that satisfies the condition on configurations. No weight is negative.
pub fn stored_steps_are_meant()
    ensures begun { stored.StoredBeginningsAreMeant }
    ensures steps { stored.StoredStepsAreMeant }
{}

/// States that the test whether configurations are the same holds exactly if they are equal.
pub fn same_is_equal()
    ensures { same.SameIsEqual }
{}
