//! Laws of runs: what steps preserve, sums that grow, and what runs do not depend on.
#![tactic(auto)]

mod laws;

pub use laws::{rules_do_not_run, steps_keep_the_rules, sums_grow, violations_refute};
