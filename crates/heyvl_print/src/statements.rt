//! The text of statements and blocks.

ghost use Rattle.heyvl_print.specs.Canonical.{arm_pieces, block_lines, braced, else_pieces};
ghost use Rattle.heyvl_print.specs.Canonical.{if_pieces, statement_lines};
ghost use Rattle.heyvl_print.specs.Pieces.{text_of};
ghost use Rattle.heyvl_syntax.specs.Expressions.{expression};
ghost use Rattle.heyvl_syntax.specs.Statements.{arms, block, statement};
ghost use Rattle.std.specs.Prelude.{◌++◌, ◌+◌, ◌≡◌, ◌≤◌, OnOk, length};

use crate::bytes::{write, write_repeated};
use crate::expressions::print_expression;
use crate::lines::{print_assign, print_claim, print_havoc, print_rules, print_var, print_word};
use crate::symbols::{check_text, pick_text, validate_text};
use heyvl_syntax::{Arm, Stmt};
use std::alloc::AllocError;

/// Returns `margin + 2`. The sum is in range, since `text` has as many bytes.
fn deeper(text: &[u8], margin: usize) -> usize
    requires { margin + 2 ≤ length text.now }
    ensures { result ≡ margin + 2 }
{
    let _length = text.len();
    margin + 2
}

/// Appends ` {`, the lines of a block and `}` to `text`.
#[cycle(printing)]
fn print_braced(text: &mut Vec<u8>, margin: usize, statements: &[Stmt]) -> Result<(), AllocError>
    requires { margin ≤ length text.old.items }
    ensures { OnOk result (text.new.items ≡ text.old.items
        ++ text_of (braced margin (block_lines (margin + 2) (block statements.now)))) }
{
    write(text, b" {\n")?;
    let inner = deeper(text, margin);
    print_block(text, inner, statements)?;
    write_repeated(text, b' ', margin)?;
    Ok(write(text, b"}")?)
}

/// Appends ` else {`, the lines of a block and `}` to `text`.
#[cycle(printing)]
fn print_else(text: &mut Vec<u8>, margin: usize, statements: &[Stmt]) -> Result<(), AllocError>
    requires { margin ≤ length text.old.items }
    ensures { OnOk result (text.new.items ≡ text.old.items
        ++ text_of (else_pieces margin (block_lines (margin + 2) (block statements.now)))) }
{
    write(text, b" else")?;
    Ok(print_braced(text, margin, statements)?)
}

/// Appends `if a {`, the lines of a block and `}` to `text`.
#[cycle(printing)]
fn print_arm(text: &mut Vec<u8>, margin: usize, arm: &Arm) -> Result<(), AllocError>
    requires { margin ≤ length text.old.items }
    ensures { OnOk result (text.new.items ≡ text.old.items
        ++ text_of (arm_pieces margin (expression arm.now.guard)
        (block_lines (margin + 2) (block arm.now.body.items)))) }
{
    write(text, b"if ")?;
    print_expression(text, &arm.guard)?;
    Ok(print_braced(text, margin, &arm.body)?)
}

/// Appends `if a { .. }` to `text`, and ` else if b { .. }` for each further arm.
#[cycle(printing)]
fn print_arms(text: &mut Vec<u8>, margin: usize, all: &[Arm]) -> Result<(), AllocError>
    requires { margin ≤ length text.old.items }
    ensures { OnOk result (text.new.items ≡ text.old.items
        ++ text_of (if_pieces margin (arms all.now))) }
{
    let Some((first, others)) = all.split_first() else {
        return Ok(());
    };
    print_arm(text, margin, first)?;
    for other in others {
        write(text, b" else ")?;
        print_arm(text, margin, other)?;
    }
    Ok(())
}

/// Appends the lines of a statement to `text`, indented by at least `margin` spaces.
#[cycle(printing)]
fn print_statement(text: &mut Vec<u8>, margin: usize, printed: &Stmt) -> Result<(), AllocError>
    requires { margin ≤ length text.old.items }
    ensures { OnOk result (text.new.items ≡ text.old.items
        ++ text_of (statement_lines margin (statement printed.now))) }
{
    match printed {
        Stmt::Var(name, ty, given, _) => Ok(print_var(text, margin, name, *ty, given)?),
        Stmt::Assign(targets, right, _) => Ok(print_assign(text, margin, targets, right)?),
        Stmt::Check(kind, claim, _) => Ok(print_claim(text, margin, check_text(*kind), claim)?),
        Stmt::Validate(co, _) => Ok(print_word(text, margin, validate_text(*co))?),
        Stmt::Havoc(co, names, _) => Ok(print_havoc(text, margin, *co, names)?),
        Stmt::Reward(amount, _) => Ok(print_claim(text, margin, b"reward", amount)?),
        Stmt::If(all, other, _) => {
            write_repeated(text, b' ', margin)?;
            print_arms(text, margin, all)?;
            print_else(text, margin, other)?;
            Ok(write(text, b"\n")?)
        }
        Stmt::Pick(up, left, right, _) => {
            write_repeated(text, b' ', margin)?;
            write(text, b"if ")?;
            write(text, pick_text(*up))?;
            print_braced(text, margin, left)?;
            print_else(text, margin, right)?;
            Ok(write(text, b"\n")?)
        }
        Stmt::While(rules, guard, body, _) => {
            print_rules(text, margin, rules)?;
            write_repeated(text, b' ', margin)?;
            write(text, b"while ")?;
            print_expression(text, guard)?;
            print_braced(text, margin, body)?;
            Ok(write(text, b"\n")?)
        }
    }
}

/// Appends the lines of a block to `text`, indented by at least `margin` spaces.
#[cycle(printing)]
pub(crate) fn print_block(
    text: &mut Vec<u8>,
    margin: usize,
    statements: &[Stmt],
) -> Result<(), AllocError>
    requires { margin ≤ length text.old.items }
    ensures { OnOk result (text.new.items ≡ text.old.items
        ++ text_of (block_lines margin (block statements.now))) }
{
    for one in statements {
        print_statement(text, margin, one)?;
    }
    Ok(())
}
