//! Names, scopes and elaborated expressions: expressions with variables by number and with types,
//! the errors in them, and the procedures as calls see them. `AllocError` means that memory ran
//! out.
#![tactic(auto)]

mod calls;
mod demands;
mod expressions;
mod laws;
mod literals;
mod meanings;
mod names;
mod operators;
mod quantifiers;
mod rules;
mod scopes;
mod stops;
mod values;

pub use calls::{Calls, Signature, calls_of};
pub use demands::{Demand, Front};
pub use expressions::{after, meets, read, read_front};
pub use laws::expressions_are_typed;
pub use literals::{inverse, literal_value, number};
pub use meanings::{Kind, Meaning};
pub use names::{any_input, any_twice, any_unknown};
pub use operators::{declarable, endless, joined, nothing};
pub use quantifiers::any_quantified;
pub use rules::told;
pub use scopes::{Local, Scope};
pub use stops::ResolveStop;
pub use values::{condition, form};
