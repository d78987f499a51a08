//! Typed heads of procedures: parameters and clauses, their variables and those of bodies, and the
//! errors in them. `AllocError` means that memory ran out.
#![tactic(auto)]

mod clauses;
mod fronts;
mod locals;
mod parameters;

pub use clauses::{clause, read_posts, read_pres};
pub use fronts::list_fronts;
pub use locals::count_locals;
pub use parameters::read_parameters;
