//! Laws of files that differ only in places: their procedures have the same states, sums and
//! bounds.
#![tactic(auto)]

mod laws;

pub use laws::places_do_not_run;
