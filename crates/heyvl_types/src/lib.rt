//! Typed trees of HeyVL: the typed file of a syntax tree, or its first static error. `AllocError`
//! means that memory ran out.
#![tactic(auto)]

mod bindings;
mod blocks;
mod files;
mod loops;
mod procedures;
mod statements;

pub use files::resolve;
pub use heyvl_acts::{
    Act, LoopAct, TProc, Typed, VarInfo, act_at, forward_meaning_matches_runs, is_target,
};
pub use resolved_laws::{
    resolved_files_meet_the_rules, resolved_forms_are_small, resolved_trees_meet_the_rules,
    resolving_is_unique,
};
pub use typed_expressions::{ResolveStop, expressions_are_typed};
