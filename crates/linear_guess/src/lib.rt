//! Proposals for rows: a point that satisfies them, or multipliers that combine them to a
//! contradiction. Each proposal is tested before it is returned.
//!
//! `AllocError` means that memory ran out.
#![tactic(auto)]

mod findings;
mod known_points;
mod lines;
mod listed_rows;
mod pairs;
mod row_shapes;
mod search;
mod simplex;
mod spots;
mod tableau;
mod watched_rows;

pub use findings::Finding;
pub use search::Search;
