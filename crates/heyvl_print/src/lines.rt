//! The text of right sides, rules and statements of one line.

ghost use Rattle.heyvl_print.specs.Canonical.{call_pieces, expression_pieces, given_pieces};
ghost use Rattle.heyvl_print.specs.Canonical.{right_pieces, rule_line, rule_pieces};
ghost use Rattle.heyvl_print.specs.Canonical.{statement_lines, target_pieces, weighted_pieces};
ghost use Rattle.heyvl_print.specs.Pieces.{comma, each, separated, text_of, word};
ghost use Rattle.heyvl_print.specs.WithoutPlaces.{no_place};
ghost use Rattle.heyvl_syntax.specs.Expressions.{expression, expressions};
ghost use Rattle.heyvl_syntax.specs.Statements.{Statement, choices, loop_rule, loop_rules};
ghost use Rattle.heyvl_syntax.specs.Statements.{optional_right, right_side};
ghost use Rattle.std.specs.Prelude.{◌++◌, ◌≡◌, ◌∷◌, OnOk, [], replicate};

use crate::bytes::{write, write_repeated};
use crate::expressions::{print_expression, print_expressions};
use crate::symbols::{havoc_text, type_text};
use heyvl_places::Name;
use heyvl_syntax::{Expr, Right, Rule, TypeName};
use std::alloc::AllocError;

/// Appends names to `text`, with commas between them.
#[inline(always)]
fn print_names(text: &mut Vec<u8>, names: &[Name]) -> Result<(), AllocError>
    ensures { OnOk result (text.new.items ≡ text.old.items
        ++ text_of (separated comma word names.now)) }
{
    let Some((first, others)) = names.split_first() else {
        return Ok(());
    };
    write(text, first.as_bytes())?;
    for other in others {
        write(text, b", ")?;
        write(text, other.as_bytes())?;
    }
    Ok(())
}

/// Appends `p: a` to `text`.
fn print_weighted(text: &mut Vec<u8>, weight: &Expr, value: &Expr) -> Result<(), AllocError>
    ensures { OnOk result (text.new.items ≡ text.old.items
        ++ text_of (weighted_pieces (expression weight.now, expression value.now))) }
{
    print_expression(text, weight)?;
    write(text, b": ")?;
    Ok(print_expression(text, value)?)
}

/// Appends the weighted values of a `choose` to `text`, with commas between them.
fn print_parts(text: &mut Vec<u8>, parts: &[(Expr, Expr)]) -> Result<(), AllocError>
    ensures { OnOk result (text.new.items ≡ text.old.items
        ++ text_of (separated comma weighted_pieces (choices parts.now))) }
{
    let Some((first, others)) = parts.split_first() else {
        return Ok(());
    };
    print_weighted(text, &first.0, &first.1)?;
    for other in others {
        write(text, b", ")?;
        print_weighted(text, &other.0, &other.1)?;
    }
    Ok(())
}

/// Appends `f(a, b)` to `text`.
fn print_call(text: &mut Vec<u8>, name: &Name, arguments: &[Expr]) -> Result<(), AllocError>
    ensures { OnOk result (text.new.items ≡ text.old.items
        ++ text_of (call_pieces name.now (expressions arguments.now))) }
{
    write(text, name.as_bytes())?;
    write(text, b"(")?;
    print_expressions(text, arguments)?;
    Ok(write(text, b")")?)
}

/// Appends a right side to `text`.
#[inline(always)]
fn print_right(text: &mut Vec<u8>, right: &Right) -> Result<(), AllocError>
    ensures { OnOk result (text.new.items ≡ text.old.items
        ++ text_of (right_pieces (right_side right.now))) }
{
    match right {
        Right::Plain(value) => Ok(print_expression(text, value)?),
        Right::Flip(probability) => {
            write(text, b"flip(")?;
            print_expression(text, probability)?;
            Ok(write(text, b")")?)
        }
        Right::Unif(low, high) => {
            write(text, b"unif(")?;
            print_expression(text, low)?;
            write(text, b", ")?;
            print_expression(text, high)?;
            Ok(write(text, b")")?)
        }
        Right::Choose(parts) => {
            write(text, b"choose { ")?;
            print_parts(text, parts)?;
            Ok(write(text, b" }")?)
        }
        Right::Call(name, arguments) => Ok(print_call(text, name, arguments)?),
    }
}

/// Appends ` = r` to `text`, or nothing without a right side.
fn print_given(text: &mut Vec<u8>, given: &Option<Right>) -> Result<(), AllocError>
    ensures { OnOk result (text.new.items ≡ text.old.items
        ++ text_of (given_pieces (optional_right given.now))) }
{
    match given {
        None => Ok(()),
        Some(right) => {
            write(text, b" = ")?;
            Ok(print_right(text, right)?)
        }
    }
}

/// Appends `x, y = ` to `text`, or nothing without a target.
#[inline(always)]
fn print_targets(text: &mut Vec<u8>, targets: &[Name]) -> Result<(), AllocError>
    ensures { OnOk result (text.new.items ≡ text.old.items ++ text_of (target_pieces targets.now)) }
{
    if targets.is_empty() {
        return Ok(());
    }
    print_names(text, targets)?;
    Ok(write(text, b" = ")?)
}

/// Appends a rule to `text`.
fn print_rule(text: &mut Vec<u8>, rule: &Rule) -> Result<(), AllocError>
    ensures { OnOk result (text.new.items ≡ text.old.items
        ++ text_of (rule_pieces (loop_rule rule.now))) }
{
    match rule {
        Rule::Invariant(invariant, _) => {
            write(text, b"@invariant(")?;
            print_expression(text, invariant)?;
            Ok(write(text, b")")?)
        }
        Rule::KInduction(k, invariant, _) => {
            write(text, b"@k_induction(")?;
            print_expression(text, k)?;
            write(text, b", ")?;
            print_expression(text, invariant)?;
            Ok(write(text, b")")?)
        }
        Rule::Ranking(step, ranking, _) => {
            write(text, b"@ranking(")?;
            print_expression(text, step)?;
            write(text, b", ")?;
            print_expression(text, ranking)?;
            Ok(write(text, b")")?)
        }
    }
}

/// Appends the lines of rules to `text`, indented by `margin` spaces.
pub(crate) fn print_rules(
    text: &mut Vec<u8>,
    margin: usize,
    rules: &[Rule],
) -> Result<(), AllocError>
    ensures { OnOk result (text.new.items ≡ text.old.items
        ++ text_of (each (rule_line margin) (loop_rules rules.now))) }
{
    for rule in rules {
        write_repeated(text, b' ', margin)?;
        print_rule(text, rule)?;
        write(text, b"\n")?;
    }
    Ok(())
}

/// Appends the line of a `var` statement to `text`, indented by `margin` spaces.
pub(crate) fn print_var(
    text: &mut Vec<u8>,
    margin: usize,
    name: &Name,
    ty: TypeName,
    given: &Option<Right>,
) -> Result<(), AllocError>
    ensures { OnOk result (text.new.items ≡ text.old.items
        ++ text_of (statement_lines margin
        (Statement.var name.now ty (optional_right given.now) no_place))) }
{
    write_repeated(text, b' ', margin)?;
    write(text, b"var ")?;
    write(text, name.as_bytes())?;
    write(text, b": ")?;
    write(text, type_text(ty))?;
    print_given(text, given)?;
    Ok(write(text, b"\n")?)
}

/// Appends the line of an assignment or a call to `text`, indented by `margin` spaces.
pub(crate) fn print_assign(
    text: &mut Vec<u8>,
    margin: usize,
    targets: &[Name],
    right: &Right,
) -> Result<(), AllocError>
    ensures { OnOk result (text.new.items ≡ text.old.items
        ++ text_of (statement_lines margin
        (Statement.assign targets.now (right_side right.now) no_place))) }
{
    write_repeated(text, b' ', margin)?;
    print_targets(text, targets)?;
    print_right(text, right)?;
    Ok(write(text, b"\n")?)
}

/// Appends the line of a `havoc` or `cohavoc` to `text`, indented by `margin` spaces.
pub(crate) fn print_havoc(
    text: &mut Vec<u8>,
    margin: usize,
    co: bool,
    names: &[Name],
) -> Result<(), AllocError>
    ensures { OnOk result (text.new.items ≡ text.old.items
        ++ text_of (statement_lines margin (Statement.havoc co names.now no_place))) }
{
    write_repeated(text, b' ', margin)?;
    write(text, havoc_text(co))?;
    write(text, b" ")?;
    print_names(text, names)?;
    Ok(write(text, b"\n")?)
}

/// Appends a line with `keyword` alone to `text`, indented by `margin` spaces.
pub(crate) fn print_word(
    text: &mut Vec<u8>,
    margin: usize,
    keyword: &[u8],
) -> Result<(), AllocError>
    ensures { OnOk result (text.new.items ≡ text.old.items
        ++ (replicate margin 32 ++ (keyword.now ++ 10 ∷ []))) }
{
    write_repeated(text, b' ', margin)?;
    write(text, keyword)?;
    Ok(write(text, b"\n")?)
}

/// Appends a line with `keyword` and an expression to `text`, indented by `margin` spaces.
pub(crate) fn print_claim(
    text: &mut Vec<u8>,
    margin: usize,
    keyword: &[u8],
    claim: &Expr,
) -> Result<(), AllocError>
    ensures { OnOk result (text.new.items ≡ text.old.items
        ++ (replicate margin 32
        ++ (keyword.now ++ 32 ∷ (text_of (expression_pieces (expression claim.now)) ++ 10 ∷ [])))) }
{
    write_repeated(text, b' ', margin)?;
    write(text, keyword)?;
    write(text, b" ")?;
    print_expression(text, claim)?;
    Ok(write(text, b"\n")?)
}
