//! The comparisons of a goal along a path, and the rows of a path.
//!
//! A *path* is a list of answered comparisons: `x <= 3`, or the truth of a Boolean. `begin` and
//! `go_on` evaluate a goal along a path to its next comparison or to an end, where both forms are
//! linear values. The *rows* of a path are the inequalities that its answers say. `AllocError`
//! means that memory ran out, and `Bits` that a number has more than 62 bits.
#![tactic(auto)]

mod claim_laws;
mod continuations;
mod cursor;
mod further_questions;
mod further_rows;
mod goal_products;
mod growing_rows;
mod known_truths;
mod node_work;
mod operations;
mod operators;
mod parts;
mod path_ends;
mod path_laws;
mod path_rows;
mod paths;
mod place_laws;
mod places;
mod plain_ends;
mod point_laws;
mod question_laws;
mod questions;
mod ready_parts;
mod row_list_laws;
mod signs;
mod splits;
mod steps;

pub use claim_laws::{paths_claim_truths, paths_rows_are_met};
pub use continuations::{begin, go_on, go_on_from};
pub use further_questions::asks_on;
pub use goal_products::nonlinear;
pub use growing_rows::{last_rows, next_row, with_denied_goal, with_signs_of_path};
pub use known_truths::known_truth;
pub use linear_rows::{
    Occurrences, Row, coefficient_of, contradicts, divided, divisor_of, greedy_choices_are_unique,
    merged, mixed, narrow_quotient, scaled, solutions_of_rows, wide_product,
};
pub use linear_values::{Lin, tightened};
pub use path_ends::ask;
pub use path_laws::paths_are_short;
pub use path_rows::{RowList, rows};
pub use paths::{Atom, Taken, copy_atom};
pub use place_laws::places_stay;
pub use places::{Place, Reached};
pub use plain_ends::holds_plainly;
pub use point_laws::{falsifying_points, truths_are_booleans, unsigned_are_nonnegative};
pub use question_laws::{constant_without_variables, one_path_agrees};
pub use questions::Ask;
pub use row_list_laws::{
    denied_rows_are_more, path_rows_grow, repeated_rows_stand, rows_are_numeric,
};
pub use splits::split;
