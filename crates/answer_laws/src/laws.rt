//! Laws of answers. Each function does nothing: its contract is the law.

ghost use Rattle.answer_laws.specs.CompleteAnswers as complete;
ghost use Rattle.answer_laws.specs.KeptAnswers as kept;
ghost use Rattle.answer_laws.specs.SingleAnswers as single;

use farkas_check::certificates_are_told_apart;
use region_split::{decisions_are_unique, decisions_tell};
use verify_core::{answers_keep_promises, proved_goals_are_accepted};

/// If no cause applies to a typed goal, a decision proves it exactly if it holds.
pub fn decisions_are_complete()
    ensures { complete.DecisionsAreComplete }
{
    decisions_tell();
}

/// If no cause or limit applies to the goals of a procedure's bound, the verdict implies that they
/// are proved exactly if they hold. If none applies to the goal of a ranking, the loop is reported
/// as ranked exactly if the ranking is one.
pub fn verdicts_are_complete()
    ensures bounds { complete.VerdictsAreComplete }
    ensures rankings { complete.RankVerdictsAreComplete }
{}

/// If no cause or limit applies to a goal of a bound, it is proved exactly if it holds, whatever
/// the outcomes of the procedure's other goals.
pub fn goals_are_complete()
    ensures { complete.GoalsAreComplete }
{
    answers_keep_promises();
}

/// The decisions of the goals of a file, or the results of their checks, determine one verdict on
/// each procedure.
pub fn tables_give_one_verdict()
    ensures decisions { single.DecisionsGiveOneVerdict }
    ensures misses { single.MissesGiveOneVerdict }
{}

/// Verdicts on a procedure agree, however its goals were decided, if the limits of rows and of bits
/// are not exceeded; and however its certificates were checked.
pub fn verdicts_are_unique()
    ensures decided { single.DecidedVerdictsAreUnique }
    ensures checked { single.CheckedVerdictsAreUnique }
{
    decisions_are_unique();
    certificates_are_told_apart();
}

/// Checking the certificates of the answers on a file yields each verdict on a procedure again that
/// is proved, and each loop that is ranked, if the trees of the proved goals are at most 1,000
/// deep.
pub fn verdicts_are_kept()
    ensures bounds { kept.VerdictsAreKept }
    ensures rankings { kept.RanksAreKept }
{
    proved_goals_are_accepted();
    tables_give_one_verdict();
}
