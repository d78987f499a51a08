//! Procedures and statements as texts.

use crate::tree_texts::text_of;
use heyvl_syntax::{Expr, File, Note, Param, Proc, Stmt};
use std::alloc::AllocError;
use std::fmt::Write;

fn note_of(note: Option<Note>) -> &'static str {
    match note {
        None => "",
        Some(Note::Wlp) => "@wlp ",
        Some(Note::Wp) => "@wp ",
        Some(Note::Ert) => "@ert ",
    }
}

fn write_params(params: &[Param], text: &mut String) -> Result<(), AllocError> {
    for param in params {
        let name = text_of(&param.name);
        let ty = param.ty;
        let span = param.span;
        write!(text, "{name}: {ty:?} {span}, ")?;
    }
    Ok(())
}

/// Writes each expression, which has to be a name.
fn write_names(exprs: &[Expr], text: &mut String) -> Result<(), AllocError> {
    for expr in exprs {
        text.push_str(" ")?;
        match expr {
            Expr::Name(name, _) => text.push_str(text_of(name))?,
            _ => text.push_str("?")?,
        }
    }
    Ok(())
}

fn write_head(found: &Proc, text: &mut String) -> Result<(), AllocError> {
    text.push_str(note_of(found.note))?;
    text.push_str(if found.co { "coproc " } else { "proc " })?;
    text.push_str(text_of(&found.name))?;
    text.push_str("(")?;
    write_params(&found.inputs, text)?;
    text.push_str(") -> (")?;
    write_params(&found.outputs, text)?;
    text.push_str(") pre")
}

fn write_procedure(found: &Proc, text: &mut String) -> Result<(), AllocError> {
    write_head(found, text)?;
    write_names(&found.pres, text)?;
    text.push_str(" post")?;
    write_names(&found.posts, text)?;
    if let Some(body) = &found.body {
        let statements = body.len();
        write!(text, " {{{statements}}}")?;
    }
    let span = found.span;
    write!(text, " {span}; ")
}

/// Writes the kind of a statement and its place: an assignment, a loop with the numbers of its
/// rules and of its statements, or an `if` with the numbers of its guards and of the statements of
/// its `else`.
fn write_statement(found: &Stmt, text: &mut String) -> Result<(), AllocError> {
    match found {
        Stmt::Assign(_, _, span) => write!(text, "assign {span}; "),
        Stmt::While(rules, _, body, span) => {
            let rules = rules.len();
            let count = body.len();
            write!(text, "while {rules} {count} {span}; ")
        }
        Stmt::If(arms, other, span) => {
            let arms = arms.len();
            let count = other.len();
            write!(text, "if {arms} {count} {span}; ")
        }
        _ => text.push_str("other; "),
    }
}

/// Returns the first statement of a loop, or of the first arm of an `if`.
fn inner(found: &Stmt) -> Option<&Stmt> {
    match found {
        Stmt::While(_, _, body, _) => body.first(),
        Stmt::If(arms, _, _) => arms.first()?.body.first(),
        _ => None,
    }
}

/// Returns the first statement of the first body.
fn first(file: &File) -> Option<&Stmt> {
    file.procs.first()?.body.as_ref()?.first()
}

/// Writes the first statement of the first body, and the first statement in it.
fn write_first(file: &File, text: &mut String) -> Result<(), AllocError> {
    if let Some(outer) = first(file) {
        write_statement(outer, text)?;
        if let Some(found) = inner(outer) {
            write_statement(found, text)?;
        }
    }
    Ok(())
}

/// Writes each procedure with the expressions of its clauses, the number of statements of its body,
/// and the places; then the first statement.
pub fn write_file(file: &File, text: &mut String) -> Result<(), AllocError> {
    for found in &file.procs {
        write_procedure(found, text)?;
    }
    write_first(file, text)
}
