//! Verdicts on a procedure and on one of its loops.

ghost use Rattle.verdict_report.specs.VerdictsOn.{IsVerdictOn, IsVerdictOnLoop};
ghost use Rattle.lower_rules.specs.internal.Said.{ranks, says_ranked, says_verified};
ghost use Rattle.std.specs.List.{list_any};
ghost use Rattle.std.specs.Prelude.{false, length, true, ◌<◌, ◌≡◌};
ghost use Rattle.verdict_report.specs.declared.answers.RankVerdict.TheVariants.{Ranked};
ghost use Rattle.verdict_report.specs.declared.answers.Verdict.TheVariants.{Verified};

use verdict_report::{Answer, LoopAnswer, RankVerdict, Verdict};

/// Returns whether the bound of the procedure `p` is verified.
pub(crate) fn is_verified(answers: &[Answer], p: u32) -> bool
    requires { p < length answers.now }
    ensures yes { result ≡ true → IsVerdictOn answers.now p Verified }
    ensures no { result ≡ false → IsVerdictOn answers.now p Verified → ⊥ }
{
    says_verified(&answers[p as usize].verdict)
}

fn says_verified(verdict: &Verdict) -> bool
    ensures { result ≡ says_verified verdict.now }
{
    matches!(verdict, Verdict::Verified)
}

/// Returns whether the ranking of the loop `number` of the procedure `p` is proved.
pub(crate) fn is_ranked(answers: &[Answer], p: u32, number: u32) -> bool
    requires { p < length answers.now }
    ensures yes { result ≡ true → IsVerdictOnLoop answers.now p number Ranked }
    ensures no { result ≡ false → IsVerdictOnLoop answers.now p number Ranked → ⊥ }
{
    some_ranks(&answers[p as usize].loops, number)
}

fn some_ranks(loops: &[LoopAnswer], number: u32) -> bool
    ensures { result ≡ list_any (ranks number) loops.now }
{
    loops.iter().any(|one| ranks(one, number))
}

fn ranks(one: &LoopAnswer, number: u32) -> bool
    ensures { result ≡ ranks number one.now }
{
    one.number == number && says_ranked(&one.rank)
}

fn says_ranked(rank: &RankVerdict) -> bool
    ensures { result ≡ says_ranked rank.now }
{
    matches!(rank, RankVerdict::Ranked)
}
