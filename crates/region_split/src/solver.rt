//! The solutions of the rows of a path.

ghost use Rattle.std.specs.Prelude.{◌≡◌, ◌<◌, ◌^◌, List, take, length, Bool, IfOk, Some};
ghost use Rattle.heylo_formula.specs.Goals.{Goal as PlainGoal};
ghost use Rattle.linear_form.specs.Query.{Taken as PlainTaken};
ghost use Rattle.linear_rows.specs.Row.{Row as PlainRow, IsRow};
ghost use Rattle.linear_rows.specs.VariableTypes.{IsNumericRow};
ghost use Rattle.std.specs.List.{All};
ghost use Rattle.linear_form.specs.PathRows.{rows_of};
ghost use Rattle.linear_guess.specs.Searches.{Remembers};
ghost use Rattle.linear_elim.specs.Answers.{IsAnswer};
ghost use Rattle.region_split.specs.internal.PathFindings.{IsSolved, IsSettledAs};

use goal_answers::{Broken, Cause};
use heylo_formula::{Ty, Val};
use linear_elim::{Elim, eliminate};
use linear_guess::{Finding, Search};
use linear_rows::Row;
use std::alloc::{AllocError, Global};

/// The solution of rows.
#[derive(Drop)]
pub enum Solved {
    /// The rows have no solution: multipliers, by row index, combine them to a contradiction.
    Refuted(Vec<(u32, u64)>),
    /// The greedy point of the rows.
    Point(Vec<Val>),
    /// The greedy choice finds no integer for a variable.
    Break(Broken),
    /// There are more than 4,096 rows, or a number overflows.
    Unknown(Cause),
}

/// Whether rows have a solution.
#[derive(Drop)]
pub enum Settled {
    /// They have none: multipliers, by row index, combine them to a contradiction.
    Refuted(Vec<(u32, u64)>),
    /// They have one.
    Met,
    /// There are more than 4,096 rows, or a number overflows.
    Unknown(Cause),
}

fn settled_by(solved: Solved) -> Settled
    ensures { (g : PlainGoal) (ps : List PlainTaken) (denied : Bool) → IsSolved g ps denied solved
        → IsSettledAs g ps denied result }
{
    match solved {
        Solved::Refuted(multipliers) => Settled::Refuted(multipliers),
        Solved::Point(_) => Settled::Met,
        Solved::Break(_) => Settled::Met,
        Solved::Unknown(cause) => Settled::Unknown(cause),
    }
}

/// Solves the rows `list`: by a proposal of `search`, or otherwise by elimination. `search` keeps
/// what it knows of the first `kept` rows.
pub fn solve(
    alloc: Global,
    list: &[Row],
    kept: usize,
    vars: &[Ty],
    search: &mut Search,
) -> Result<Solved, AllocError>
    requires rows { All IsRow list.now }
    requires numeric { All (IsNumericRow vars.now) list.now }
    requires few { length list.now < 2 ^ 32 }
    requires few_variables { length vars.now < 2 ^ 32 }
    requires remembered { Remembers search.old list.now }
    ensures solved { (g : PlainGoal) (ps : List PlainTaken) (denied : Bool)
        → rows_of g ps denied ≡ Some list.now → g.types ≡ vars.now
        → IfOk result (λ s. IsSolved g ps denied s) }
    ensures remembered { Remembers search.new (take kept list.now) }
{
    match search.find(alloc, list, kept, vars.len())? {
        Finding::Refuted(multipliers) => Ok(Solved::Refuted(multipliers)),
        Finding::Met => solve_rows(alloc, list, vars),
        Finding::Open => solve_rows(alloc, list, vars),
    }
}

/// Returns whether the rows `list` have a solution: by a proposal of `search`, or otherwise by
/// elimination. `search` keeps what it knows of the first `kept` rows.
pub fn settle(
    alloc: Global,
    list: &[Row],
    kept: usize,
    vars: &[Ty],
    search: &mut Search,
) -> Result<Settled, AllocError>
    requires rows { All IsRow list.now }
    requires numeric { All (IsNumericRow vars.now) list.now }
    requires few { length list.now < 2 ^ 32 }
    requires few_variables { length vars.now < 2 ^ 32 }
    requires remembered { Remembers search.old list.now }
    ensures settled { (g : PlainGoal) (ps : List PlainTaken) (denied : Bool)
        → rows_of g ps denied ≡ Some list.now → g.types ≡ vars.now
        → IfOk result (λ s. IsSettledAs g ps denied s) }
    ensures remembered { Remembers search.new (take kept list.now) }
{
    match search.find(alloc, list, kept, vars.len())? {
        Finding::Refuted(multipliers) => Ok(Settled::Refuted(multipliers)),
        Finding::Met => Ok(Settled::Met),
        Finding::Open => Ok(settled_by(solve_rows(alloc, list, vars)?)),
    }
}

/// Solves the rows `list` by elimination.
pub fn solve_rows(alloc: Global, list: &[Row], vars: &[Ty]) -> Result<Solved, AllocError>
    requires rows { All IsRow list.now }
    requires numeric { All (IsNumericRow vars.now) list.now }
    requires few { length list.now < 2 ^ 32 }
    requires few_variables { length vars.now < 2 ^ 32 }
    ensures { (g : PlainGoal) (ps : List PlainTaken) (denied : Bool)
        → rows_of g ps denied ≡ Some list.now → g.types ≡ vars.now
        → IfOk result (λ s. IsSolved g ps denied s) }
{
    Ok(told(eliminate(alloc, list, vars)?))
}

fn told(answer: Elim) -> Solved
    ensures { (g : PlainGoal) (ps : List PlainTaken) (denied : Bool) (list : List PlainRow)
        → rows_of g ps denied ≡ Some list → IsAnswer list g.types answer
        → IsSolved g ps denied result }
{
    match answer {
        Elim::NoSolution(multipliers) => Solved::Refuted(multipliers),
        Elim::Point(point) => Solved::Point(point),
        Elim::Fraction(broken) => Solved::Break(broken),
        Elim::Rows(steps, count) => Solved::Unknown(Cause::Rows(steps, count)),
        Elim::Bits => Solved::Unknown(Cause::Bits),
    }
}
