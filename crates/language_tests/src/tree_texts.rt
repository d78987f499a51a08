//! Trees of expressions as texts.

use heyvl_places::{Name, Span};
use heyvl_syntax::{BinaryOp, Expr, File, Lit, TypeName, UnaryOp};
use std::alloc::AllocError;
use std::fmt::Write;

fn sign(op: BinaryOp) -> &'static str {
    match op {
        BinaryOp::Imply => " ==> ",
        BinaryOp::CoImply => " <== ",
        BinaryOp::Cup => " \\cup ",
        BinaryOp::Cap => " \\cap ",
        BinaryOp::Or => " || ",
        BinaryOp::And => " && ",
        BinaryOp::Same => " == ",
        BinaryOp::Differ => " != ",
        BinaryOp::Less => " < ",
        BinaryOp::AtMost => " <= ",
        BinaryOp::More => " > ",
        BinaryOp::AtLeast => " >= ",
        BinaryOp::Plus => " + ",
        BinaryOp::Minus => " - ",
        BinaryOp::Star => " * ",
        BinaryOp::Slash => " / ",
    }
}

fn prefix(op: UnaryOp) -> &'static str {
    match op {
        UnaryOp::Not => "{!",
        UnaryOp::Minus => "{-",
        UnaryOp::Tilde => "{~",
    }
}

/// Returns the text of a name.
pub fn text_of(name: &Name) -> &str {
    std::str::from_utf8(name.as_bytes()).unwrap_or("?")
}

fn write_number(lit: Lit, text: &mut String) -> Result<(), AllocError> {
    let digits = lit.digits;
    write!(text, "{digits}")?;
    if lit.places != 0 {
        let places = lit.places;
        write!(text, "e{places}")?;
    }
    Ok(())
}

fn write_binder(up: bool, name: &Name, ty: TypeName, text: &mut String) -> Result<(), AllocError> {
    let key = if up { "sup" } else { "inf" };
    let name = text_of(name);
    write!(text, "{{{key} {name}: {ty:?}. ")
}

/// Writes the text before the parts of an expression, or the whole text if it has no parts.
fn write_front(expr: &Expr, text: &mut String) -> Result<(), AllocError> {
    match expr {
        Expr::Number(lit, _) => write_number(*lit, text),
        Expr::Truth(truth, _) => text.push_str(if *truth { "true" } else { "false" }),
        Expr::Infinity(_) => text.push_str("\\infty"),
        Expr::Name(name, _) => text.push_str(text_of(name)),
        Expr::Group(_, _) => text.push_str("("),
        Expr::Bracket(_, _) => text.push_str("["),
        Expr::Embed(_, _) => text.push_str("?("),
        Expr::Unary(op, _, _) => text.push_str(prefix(*op)),
        Expr::Binary(_, _, _, _) => text.push_str("{"),
        Expr::Choice(_, _, _, _) => text.push_str("ite("),
        Expr::Bound(up, name, ty, _, _) => write_binder(*up, name, *ty, text),
    }
}

/// Returns the text after the parts of an expression.
fn end(expr: &Expr) -> &'static str {
    match expr {
        Expr::Group(_, _) | Expr::Embed(_, _) | Expr::Choice(_, _, _, _) => ")",
        Expr::Bracket(_, _) => "]",
        Expr::Unary(_, _, _) | Expr::Binary(_, _, _, _) | Expr::Bound(_, _, _, _, _) => "}",
        _ => "",
    }
}

/// Writes the tree with braces around each operator and quantifier.
fn write_tree(expr: &Expr, text: &mut String) -> Result<(), AllocError> {
    write_front(expr, text)?;
    match expr {
        Expr::Group(inner, _) => write_tree(inner, text)?,
        Expr::Bracket(inner, _) => write_tree(inner, text)?,
        Expr::Embed(inner, _) => write_tree(inner, text)?,
        Expr::Unary(_, inner, _) => write_tree(inner, text)?,
        Expr::Binary(op, left, right, _) => {
            write_tree(left, text)?;
            text.push_str(sign(*op))?;
            write_tree(right, text)?;
        }
        Expr::Choice(test, left, right, _) => {
            write_tree(test, text)?;
            text.push_str(", ")?;
            write_tree(left, text)?;
            text.push_str(", ")?;
            write_tree(right, text)?;
        }
        Expr::Bound(_, _, _, inner, _) => write_tree(inner, text)?,
        _ => (),
    }
    text.push_str(end(expr))
}

fn place(expr: &Expr) -> Span {
    match expr {
        Expr::Number(_, span) => *span,
        Expr::Truth(_, span) => *span,
        Expr::Infinity(span) => *span,
        Expr::Name(_, span) => *span,
        Expr::Group(_, span) => *span,
        Expr::Bracket(_, span) => *span,
        Expr::Embed(_, span) => *span,
        Expr::Unary(_, _, span) => *span,
        Expr::Binary(_, _, _, span) => *span,
        Expr::Choice(_, _, _, span) => *span,
        Expr::Bound(_, _, _, _, span) => *span,
    }
}

/// The text before each expression.
pub const HEAD: &str = "proc f() -> () pre ";

/// Writes the tree, and its place counted from the start of the expression.
fn write_expression(expr: &Expr, text: &mut String) -> Result<(), AllocError> {
    write_tree(expr, text)?;
    let place = place(expr);
    let from = place.from.saturating_sub(HEAD.len() as u32);
    let to = place.to.saturating_sub(HEAD.len() as u32);
    write!(text, " {from}..{to}")
}

/// Writes the expression of the first clause, which is after the head, and its place.
pub fn write_clause(file: &File, text: &mut String) -> Result<(), AllocError> {
    match file.procs.first() {
        Some(procedure) => match procedure.pres.first() {
            Some(expr) => write_expression(expr, text),
            None => Ok(()),
        },
        None => Ok(()),
    }
}
