//! Answers on procedures.

use goal_answers::{Cause, Miss};
use heylo_formula::{GoalId, Val};
use heyvl_places::Name;
use proc_contracts::WhyNot;

/// The answer on a procedure.
#[derive(Drop)]
pub struct Answer {
    /// The procedure's name.
    pub name: Name,
    /// The verdict on its bound.
    pub verdict: Verdict,
    /// The verdicts on its loops with a ranking, in the order of the text.
    pub loops: Vec<LoopAnswer>,
}

/// The verdict on a procedure's bound.
#[derive(Drop)]
pub enum Verdict {
    /// The bound holds over all runs: its goals and those of all procedures that it reaches are
    /// proved, and all of these procedures are programs.
    Verified,
    /// The goals of the bound are proved, but the procedure is no program, for this reason.
    Valid(WhyNot),
    /// The goals of the bound are proved, but this procedure, which is reached, is no program or
    /// has a goal that is not proved.
    Conditional(u32),
    /// The goal is false in this state, which has a value for each variable of the goal.
    NotVerified(GoalId, Vec<Val>),
    /// The goal is not decided, for this cause.
    Unknown(GoalId, Cause),
    /// The procedure has no body.
    NoBody,
    /// The certificates do not prove the goal.
    Unchecked(GoalId, Miss),
}

/// The answer on a loop with a ranking.
#[derive(Drop)]
pub struct LoopAnswer {
    /// The loop's number in its procedure, from 1.
    pub number: u32,
    /// The verdict on its ranking.
    pub rank: RankVerdict,
}

/// The verdict on a ranking.
#[derive(Drop)]
pub enum RankVerdict {
    /// The goal of the ranking is proved.
    Ranked,
    /// The goal is false in this state, which has a value for each variable of the goal.
    NotRanked(Vec<Val>),
    /// The goal is not decided, for this cause.
    Unknown(Cause),
    /// The certificates do not prove the goal.
    Unchecked(Miss),
}
