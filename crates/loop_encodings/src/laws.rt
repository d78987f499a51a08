//! Laws of encodings. Each function does nothing: its contract is the law.

ghost use Rattle.loop_encodings.specs.EncodingLaws as encodings;
ghost use Rattle.loop_encodings.specs.FreshLaws as new;

/// States that, in a file that satisfies the static rules, the encoding of a procedure reads only
/// the procedure's variables and the fresh ones, and gives any value only to these.
pub fn encodings_are_over_their_variables()
    ensures over { encodings.EncodingIsOver }
    ensures binds { encodings.EncodingBindsItsVariables }
{}

/// States that a main goal counts the fresh variables as its own, but they occur in neither form:
/// in a file that satisfies the static rules, the pre and the generated form have free only
/// variables of the procedure.
pub fn main_goals_lack_fresh_variables()
    ensures counted { new.MainGoalsCountFreshVariables }
    ensures over { new.MainFormsAreOverOwnVariables }
    ensures not_free { new.FreshVariablesAreNotFree }
    ensures lacking { new.MainGoalsLackFreshVariables }
{}
