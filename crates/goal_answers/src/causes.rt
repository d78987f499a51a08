//! Causes of undecided goals.

use heylo_formula::Val;
use heyvl_num::Frac;
use heyvl_places::Span;

/// An interval without integers for an integer variable: the variable, the values that were chosen
/// before, in the order of choice, and the two ends of the interval, each with whether it belongs
/// to the interval.
#[derive(Drop)]
pub struct Broken {
    pub var: u32,
    pub earlier: Vec<(u32, Val)>,
    pub low: Frac,
    pub low_in: bool,
    pub high: Frac,
    pub high_in: bool,
}

/// The cause of an undecided goal.
#[derive(Drop)]
pub enum Cause {
    /// The form of the goal would be deeper than 1,000.
    Depth,
    /// The form of the goal would have more than 200,000 nodes.
    Nodes,
    /// Both factors of the product at this place contain a numeric variable outside conditions.
    Nonlinear(Span),
    /// There are more than 4,096 cells. The number is the count at which the walk stopped, 4,097.
    Cells(u32),
    /// There are more than 4,096 rows: the number of eliminated variables, and the number of rows.
    Rows(u32, u32),
    /// A number overflows.
    Bits,
    /// The greedy choice finds no integer for a variable.
    Fraction(Broken),
}
