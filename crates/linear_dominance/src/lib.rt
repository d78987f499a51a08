//! Rows that other rows imply, because some variables are not negative.
#![tactic(auto)]

mod dominance;
mod laws;
mod signs;

pub use dominance::dominates;
pub use laws::undominated_rows_tell_all;
pub use signs::sign_of;
