//! The variables that loops modify, the procedures that others reach, and the reasons against
//! programs. `AllocError` means that memory ran out.
#![tactic(auto)]

mod calls;
mod modified_variables;
mod programs;
mod reached_procedures;
mod reasons;

pub use modified_variables::modified;
pub use programs::not_program;
pub use reached_procedures::reach;
pub use reasons::WhyNot;
