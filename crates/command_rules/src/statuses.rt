//! The exit statuses.

ghost use Rattle.command_rules.specs.Statuses.{answers_status, fault_status, is_open, is_rank_open};
ghost use Rattle.command_rules.specs.Statuses.{is_rank_refuted, is_refuted, leaves_open, refutes};
ghost use Rattle.std.specs.List.{list_any};
ghost use Rattle.std.specs.Prelude.{◌≡◌};
ghost use Rattle.verdict_report.specs.declared.answers.LoopAnswer.{LoopAnswer};

use crate::Fault;
use verdict_report::{Answer, LoopAnswer, RankVerdict, Verdict};

/// Returns the exit status of a fault, for a reply without answers.
pub fn fault_status(fault: &Fault) -> u8
    ensures { result ≡ fault_status fault.now }
{
    match fault {
        Fault::Nothing => 0,
        Fault::TooLong(_) | Fault::Source(_, _) | Fault::Cert(_) => 3,
        Fault::Script(_) | Fault::NoProcedure => 3,
        Fault::Shape | Fault::NotProgram(_) => 3,
        Fault::Usage => 4,
        Fault::Read(_) => 5,
        Fault::Write => 6,
        Fault::Memory => 7,
        Fault::Run(_) => 8,
    }
}

fn is_refuted(verdict: &Verdict) -> bool
    ensures { result ≡ is_refuted verdict.now }
{
    matches!(verdict, Verdict::NotVerified(_, _))
}

fn is_rank_refuted(rank: &RankVerdict) -> bool
    ensures { result ≡ is_rank_refuted rank.now }
{
    matches!(rank, RankVerdict::NotRanked(_))
}

fn is_open(verdict: &Verdict) -> bool
    ensures { result ≡ is_open verdict.now }
{
    matches!(
        verdict,
        Verdict::Conditional(_) | Verdict::Unknown(_, _) | Verdict::Unchecked(_, _)
    )
}

fn is_rank_open(rank: &RankVerdict) -> bool
    ensures { result ≡ is_rank_open rank.now }
{
    matches!(rank, RankVerdict::Unknown(_) | RankVerdict::Unchecked(_))
}

fn is_any_refuted(loops: &[LoopAnswer]) -> bool
    ensures { result ≡ list_any (λ (l : LoopAnswer). is_rank_refuted l.rank) loops.now }
{
    loops.iter().any(|one| is_rank_refuted(&one.rank))
}

fn is_any_open(loops: &[LoopAnswer]) -> bool
    ensures { result ≡ list_any (λ (l : LoopAnswer). is_rank_open l.rank) loops.now }
{
    loops.iter().any(|one| is_rank_open(&one.rank))
}

fn refutes(answer: &Answer) -> bool
    ensures { result ≡ refutes answer.now }
{
    is_refuted(&answer.verdict) || is_any_refuted(&answer.loops)
}

fn leaves_open(answer: &Answer) -> bool
    ensures { result ≡ leaves_open answer.now }
{
    is_open(&answer.verdict) || is_any_open(&answer.loops)
}

fn some_refutes(answers: &[Answer]) -> bool
    ensures { result ≡ list_any refutes answers.now }
{
    answers.iter().any(|answer| refutes(answer))
}

fn some_leaves_open(answers: &[Answer]) -> bool
    ensures { result ≡ list_any leaves_open answers.now }
{
    answers.iter().any(|answer| leaves_open(answer))
}

/// Returns 1 if some bound or ranking is false, otherwise 2 if one is open, otherwise 0.
pub(crate) fn answers_status(answers: &[Answer]) -> u8
    ensures { result ≡ answers_status answers.now }
{
    if some_refutes(answers) {
        1
    } else if some_leaves_open(answers) {
        2
    } else {
        0
    }
}
