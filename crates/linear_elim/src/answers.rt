//! The answers of the elimination.

use goal_answers::Broken;
use heylo_formula::Val;

/// The answer on rows.
#[derive(Drop)]
pub enum Elim {
    /// The rows have no solution: multipliers, by row index, combine them to a contradiction.
    NoSolution(Vec<(u32, u64)>),
    /// The greedy point of the rows: a value for each variable. Booleans are false.
    Point(Vec<Val>),
    /// The rows have a solution, but the greedy choice finds no integer for a variable.
    Fraction(Broken),
    /// There are more than 4,096 rows: the number of eliminated variables, and the number of rows.
    Rows(u32, u32),
    /// A number reaches its limit.
    Bits,
}
