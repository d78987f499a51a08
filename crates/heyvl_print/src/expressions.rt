//! The text of expressions.

ghost use Rattle.heyvl_print.specs.Canonical.{expression_pieces};
ghost use Rattle.heyvl_print.specs.Pieces.{comma, separated, text_of};
ghost use Rattle.heyvl_syntax.specs.Expressions.{expression, expressions};
ghost use Rattle.std.specs.Prelude.{◌++◌, ◌≡◌, OnOk};

use crate::bytes::write;
use crate::numbers::print_number;
use crate::symbols::{operator_text, prefix_text, quantifier_text, truth_text, type_text};
use heyvl_syntax::Expr;
use std::alloc::AllocError;

/// Appends an expression to `text`.
pub(crate) fn print_expression(text: &mut Vec<u8>, printed: &Expr) -> Result<(), AllocError>
    ensures { OnOk result (text.new.items ≡ text.old.items
        ++ text_of (expression_pieces (expression printed.now))) }
{
    match printed {
        Expr::Number(number, _) => Ok(print_number(text, *number)?),
        Expr::Truth(truth, _) => Ok(write(text, truth_text(*truth))?),
        Expr::Infinity(_) => Ok(write(text, b"\\infty")?),
        Expr::Name(name, _) => Ok(write(text, name.as_bytes())?),
        Expr::Group(inner, _) => {
            write(text, b"(")?;
            print_expression(text, inner)?;
            Ok(write(text, b")")?)
        }
        Expr::Bracket(inner, _) => {
            write(text, b"[")?;
            print_expression(text, inner)?;
            Ok(write(text, b"]")?)
        }
        Expr::Embed(inner, _) => {
            write(text, b"?(")?;
            print_expression(text, inner)?;
            Ok(write(text, b")")?)
        }
        Expr::Unary(op, inner, _) => {
            write(text, prefix_text(*op))?;
            Ok(print_expression(text, inner)?)
        }
        Expr::Binary(op, left, right, _) => {
            print_expression(text, left)?;
            write(text, b" ")?;
            write(text, operator_text(*op))?;
            write(text, b" ")?;
            Ok(print_expression(text, right)?)
        }
        Expr::Choice(test, left, right, _) => {
            write(text, b"ite(")?;
            print_expression(text, test)?;
            write(text, b", ")?;
            print_expression(text, left)?;
            write(text, b", ")?;
            print_expression(text, right)?;
            Ok(write(text, b")")?)
        }
        Expr::Bound(up, name, ty, inner, _) => {
            write(text, quantifier_text(*up))?;
            write(text, b" ")?;
            write(text, name.as_bytes())?;
            write(text, b": ")?;
            write(text, type_text(*ty))?;
            write(text, b". ")?;
            Ok(print_expression(text, inner)?)
        }
    }
}

/// Appends expressions to `text`, with commas between them.
pub(crate) fn print_expressions(text: &mut Vec<u8>, all: &[Expr]) -> Result<(), AllocError>
    ensures { OnOk result (text.new.items ≡ text.old.items
        ++ text_of (separated comma expression_pieces (expressions all.now))) }
{
    let Some((first, others)) = all.split_first() else {
        return Ok(());
    };
    print_expression(text, first)?;
    for other in others {
        write(text, b", ")?;
        print_expression(text, other)?;
    }
    Ok(())
}
