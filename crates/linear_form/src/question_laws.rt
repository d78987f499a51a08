//! The laws of the comparisons of a goal. Each function does nothing: its contract is the law.

ghost use Rattle.linear_form.specs.QuestionLaws as law;

/// States that exactly one path of comparisons agrees with a state and has no comparison left, and
/// that its two linear values are the values of the two forms in the state, for goals and states of
/// the right types.
pub fn one_path_agrees()
    ensures path { law.StatesHaveAPath }
    ensures unique { law.PathsAreUnique }
    ensures ends { law.EndsAreValues }
{}

/// States that a form without variables outside conditions has constant values.
pub fn constant_without_variables()
    ensures { law.ConstantWithoutVariables }
{}
