//! The laws of the claims and of the rows of a path. Each function does nothing: its contract is
//! the law.

ghost use Rattle.linear_form.specs.ClaimLaws as law;

/// States that the claims of a path's answers and signs hold in each state that agrees with the
/// path; with the denied goal among them, they hold in each such state in which the goal fails.
pub fn paths_claim_truths()
    ensures answers { law.AnswersClaimTruths }
    ensures denied { law.DenialsClaimTruths }
{}

/// States that each state that agrees with a path satisfies its rows; with the denied goal among
/// them, this holds for the states in which the goal fails.
pub fn paths_rows_are_met()
    ensures answers { law.RowsAreMet }
    ensures denied { law.DeniedRowsAreMet }
{}
