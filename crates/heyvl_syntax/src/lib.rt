//! Tokens, the lexer and the syntax trees of HeyVL.
//!
//! `AllocError` means that memory ran out.
#![tactic(auto)]

mod bytes;
mod comments;
mod copies;
mod expressions;
mod fronts;
mod keys;
mod laws;
mod lexer;
mod literals;
mod marks;
mod operators;
mod procedures;
mod statements;
mod stops;
mod tokens;
mod tree_laws;
mod types;

pub use expressions::Expr;
pub use heyvl_places::{CheckKind, Name, Place, Span, place_at};
pub use keys::Key;
pub use laws::{
    faults_are_unique, files_have_no_token_fault, source_faults_are_unique,
    source_faults_stand_inside, sources_have_no_fault, token_faults_are_unique, tokens_are_few,
    tokens_are_unique, tokens_exclude_faults, tokens_or_fault, tokens_stand_in_order,
};
pub use lexer::lex;
pub use literals::Lit;
pub use marks::Mark;
pub use operators::{BinaryOp, UnaryOp};
pub use procedures::{File, Note, Param, Proc};
pub use statements::{Arm, Right, Rule, Stmt};
pub use stops::LexStop;
pub use tokens::{Token, TokenKind};
pub use tree_laws::{expressions_are_few, expressions_are_plain, statements_are_plain};
pub use types::TypeName;
