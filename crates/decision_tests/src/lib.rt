//! Tests of goals: their comparisons, the rows of their paths, their decisions, and their
//! certificates. Each line of a text is a test.
//!
//! `AllocError` means that memory ran out, or that a line of a test is malformed.
#![tactic(auto)]

#[cfg(test)]
mod check_tests;
#[cfg(test)]
mod decision_tests;
#[cfg(test)]
mod dropped_ends;
#[cfg(test)]
mod goal_texts;
#[cfg(test)]
mod kinds;
#[cfg(test)]
mod path_row_tests;
#[cfg(test)]
mod paths;
#[cfg(test)]
mod product_tests;
#[cfg(test)]
mod question_tests;
#[cfg(test)]
mod question_texts;
#[cfg(test)]
mod test_goals;
#[cfg(test)]
mod tree_texts;
