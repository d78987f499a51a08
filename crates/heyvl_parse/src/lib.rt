//! The parser of HeyVL: readers of single tokens, expressions, statements, procedures and files,
//! and the limits of a file. A reader takes tokens, and returns what it has read at their beginning
//! and the tokens after it, or a `PartStop`. `AllocError` means that memory ran out.
//!
//! Parsers of other languages over the same tokens can use the readers of expressions and of single
//! tokens; their proofs use `specs/readers` and `proofs/exported`.
#![tactic(auto)]

mod counts;
mod effects;
mod expression_reader;
mod expressions;
mod file_reader;
mod laws;
mod leaves;
mod limits;
mod lists;
mod loops;
mod operators;
mod parser;
mod places;
mod procedures;
mod rights;
mod sequels;
mod simple;
mod starts;
mod statements;
mod stops;
mod tokens;
mod typed_names;

pub use expressions::whole;
pub use laws::{expression_is_unique, file_is_unique};
pub use limits::{crowd_at, overload_at};
pub use parser::{ParseStop, parse, parse_expr};
pub use places::span_between;
pub use sequels::{beside, closed};
pub use stops::PartStop;
pub use tokens::{expect, expect_key, next, starts_key, starts_mark, word};
