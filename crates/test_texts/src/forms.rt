//! Forms, conditions and goals of tests, in postfix notation: `x 3 +` is the sum of the variable 0
//! and 3. A malformed text yields `AllocError`.

use crate::numbers::{extended, fraction, types_of};
use heylo_formula::{Cond, Form, Goal, Ty};
use heyvl_num::{Ext, Frac};
use heyvl_places::Span;
use std::alloc::{AllocError, Global};
use test_lines::index;

/// An operator of two forms.
#[derive(Clone, Copy)]
enum Operator {
    Sum,
    Diff,
    Cut,
    Product(u32),
    Min,
    Max,
    Imply,
    CoImply,
}

/// A comparison of two forms.
#[derive(Clone, Copy)]
enum Comparison {
    AtMost,
    Below,
    Equal,
}

/// An operator of conditions.
#[derive(Clone, Copy)]
enum Connective {
    Not,
    And,
    Or,
    Same,
    Ite,
}

/// An operator of one form, of a condition, or of a condition and two forms.
#[derive(Clone, Copy)]
enum Frame {
    Scale(Frac),
    Bind(u32),
    Validate,
    CoValidate,
    Embed,
    Iverson,
    Select,
}

fn operator_of(word: &str) -> Option<Operator> {
    match word {
        "+" => Some(Operator::Sum),
        "-" => Some(Operator::Diff),
        "cut" => Some(Operator::Cut),
        "min" => Some(Operator::Min),
        "max" => Some(Operator::Max),
        "imply" => Some(Operator::Imply),
        "coimply" => Some(Operator::CoImply),
        _ => None,
    }
}

/// Reads a product: `*`, or `*5` if its operator is at byte 5.
fn product_of(word: &str) -> Option<Operator> {
    match word.strip_prefix('*') {
        Some(place) => Some(Operator::Product(place.parse::<u32>().unwrap_or(0))),
        None => None,
    }
}

fn comparison_of(word: &str) -> Option<Comparison> {
    match word {
        "<=" => Some(Comparison::AtMost),
        "<" => Some(Comparison::Below),
        "=" => Some(Comparison::Equal),
        _ => None,
    }
}

fn connective_of(word: &str) -> Option<Connective> {
    match word {
        "not" => Some(Connective::Not),
        "and" => Some(Connective::And),
        "or" => Some(Connective::Or),
        "same" => Some(Connective::Same),
        "ite" => Some(Connective::Ite),
        _ => None,
    }
}

fn frame_of(word: &str) -> Option<Frame> {
    match word {
        "validate" => Some(Frame::Validate),
        "covalidate" => Some(Frame::CoValidate),
        "embed" => Some(Frame::Embed),
        "[]" => Some(Frame::Iverson),
        "select" => Some(Frame::Select),
        _ => None,
    }
}

/// The operands that were read and are not used yet.
#[derive(Drop)]
struct Operands {
    forms: Vec<Box<Form>>,
    tests: Vec<Box<Cond>>,
}

/// Takes the last form.
fn form(operands: &mut Operands) -> Result<Box<Form>, AllocError> {
    match operands.forms.pop() {
        Some(form) => Ok(form),
        None => Err(AllocError),
    }
}

fn test(operands: &mut Operands) -> Result<Box<Cond>, AllocError> {
    match operands.tests.pop() {
        Some(test) => Ok(test),
        None => Err(AllocError),
    }
}

fn push_form(alloc: Global, form: Form, operands: &mut Operands) -> Result<(), AllocError> {
    operands.forms.push(Box::new(alloc, form)?)?;
    Ok(())
}

fn push_test(alloc: Global, test: Cond, operands: &mut Operands) -> Result<(), AllocError> {
    operands.tests.push(Box::new(alloc, test)?)?;
    Ok(())
}

fn joined(by: Operator, left: Box<Form>, right: Box<Form>) -> Form {
    match by {
        Operator::Sum => Form::Sum(left, right),
        Operator::Diff => Form::Diff(left, right),
        Operator::Cut => Form::Cut(left, right),
        Operator::Product(from) => Form::Product(
            left,
            right,
            Span {
                from,
                to: from.wrapping_add(1),
            },
        ),
        Operator::Min => Form::Min(left, right),
        Operator::Max => Form::Max(left, right),
        Operator::Imply => Form::Imply(left, right),
        Operator::CoImply => Form::CoImply(left, right),
    }
}

fn join(alloc: Global, by: Operator, operands: &mut Operands) -> Result<(), AllocError> {
    let right = form(operands)?;
    let left = form(operands)?;
    push_form(alloc, joined(by, left, right), operands)
}

fn compared(by: Comparison, left: Box<Form>, right: Box<Form>) -> Cond {
    match by {
        Comparison::AtMost => Cond::Le(left, right),
        Comparison::Below => Cond::Lt(left, right),
        Comparison::Equal => Cond::EqNum(left, right),
    }
}

fn compare(alloc: Global, by: Comparison, operands: &mut Operands) -> Result<(), AllocError> {
    let right = form(operands)?;
    let left = form(operands)?;
    push_test(alloc, compared(by, left, right), operands)
}

fn connected(by: Connective, last: Box<Cond>, operands: &mut Operands) -> Result<Cond, AllocError> {
    match by {
        Connective::Not => Ok(Cond::Not(last)),
        Connective::And => Ok(Cond::And(test(operands)?, last)),
        Connective::Or => Ok(Cond::Or(test(operands)?, last)),
        Connective::Same => Ok(Cond::Same(test(operands)?, last)),
        Connective::Ite => {
            let holds = test(operands)?;
            Ok(Cond::Ite(test(operands)?, holds, last))
        }
    }
}

fn connect(alloc: Global, by: Connective, operands: &mut Operands) -> Result<(), AllocError> {
    let last = test(operands)?;
    let whole = connected(by, last, operands)?;
    push_test(alloc, whole, operands)
}

/// Takes a condition and two forms, and returns the form that selects between them.
fn selected(operands: &mut Operands) -> Result<Form, AllocError> {
    let fails = form(operands)?;
    let holds = form(operands)?;
    Ok(Form::Select(test(operands)?, holds, fails))
}

fn framed(by: Frame, operands: &mut Operands) -> Result<Form, AllocError> {
    match by {
        Frame::Scale(times) => Ok(Form::Scale(times, form(operands)?)),
        Frame::Bind(x) => Ok(Form::Bind(false, x, x, Ty::UInt, form(operands)?)),
        Frame::Validate => Ok(Form::Validate(form(operands)?)),
        Frame::CoValidate => Ok(Form::CoValidate(form(operands)?)),
        Frame::Embed => Ok(Form::Embed(test(operands)?)),
        Frame::Iverson => Ok(Form::Iverson(test(operands)?)),
        Frame::Select => selected(operands),
    }
}

fn enclose(alloc: Global, by: Frame, operands: &mut Operands) -> Result<(), AllocError> {
    let whole = framed(by, operands)?;
    push_form(alloc, whole, operands)
}

/// Reads a number, `inf`, or a variable such as `v2`.
fn atom(word: &str) -> Result<Form, AllocError> {
    match word.strip_prefix('v') {
        Some(number) => Ok(Form::Var(index(number)?)),
        None => Ok(Form::Const(extended(word)?)),
    }
}

/// Reads a truth value, or a variable such as `b2`.
fn truth(word: &str) -> Result<Cond, AllocError> {
    match word.strip_prefix('b') {
        Some(number) => Ok(Cond::Var(index(number)?)),
        None => Ok(Cond::Const(word == "true")),
    }
}

/// Reads an operand. The variables 0 and 1 are `x` and `y`.
fn read_atom(alloc: Global, word: &str, operands: &mut Operands) -> Result<(), AllocError> {
    if word == "true" || word == "false" || word.starts_with('b') {
        return push_test(alloc, truth(word)?, operands);
    }
    let word = match word {
        "x" => "v0",
        "y" => "v1",
        _ => word,
    };
    push_form(alloc, atom(word)?, operands)
}

/// Reads a multiple such as `scale:1/2`, an infimum over a UInt such as `bind:1`, or another
/// operator that does not have two operands.
fn read_other(alloc: Global, word: &str, operands: &mut Operands) -> Result<(), AllocError> {
    if let Some(by) = frame_of(word) {
        return enclose(alloc, by, operands);
    }
    match word.strip_prefix("scale:") {
        Some(times) => enclose(alloc, Frame::Scale(fraction(times)?), operands),
        None => match word.strip_prefix("bind:") {
            Some(variable) => enclose(alloc, Frame::Bind(index(variable)?), operands),
            None => read_atom(alloc, word, operands),
        },
    }
}

fn read_word(alloc: Global, word: &str, operands: &mut Operands) -> Result<(), AllocError> {
    if let Some(by) = operator_of(word) {
        return join(alloc, by, operands);
    }
    if let Some(by) = product_of(word) {
        return join(alloc, by, operands);
    }
    if let Some(by) = comparison_of(word) {
        return compare(alloc, by, operands);
    }
    if let Some(by) = connective_of(word) {
        return connect(alloc, by, operands);
    }
    read_other(alloc, word, operands)
}

fn operands_of(alloc: Global, text: &str) -> Result<Operands, AllocError> {
    let mut operands = Operands {
        forms: Vec::new(alloc),
        tests: Vec::new(alloc),
    };
    for word in text.split_whitespace() {
        read_word(alloc, word, &mut operands)?;
    }
    Ok(operands)
}

fn goal(alloc: Global, upper: bool, stated: Form, found: Form, vars: Vec<Ty>) -> Goal {
    Goal {
        upper,
        stated,
        found,
        vars,
        names: Vec::new(alloc),
        own: 0,
    }
}

/// Reads a form.
pub fn form_of(alloc: Global, text: &str) -> Result<Box<Form>, AllocError> {
    let mut operands = operands_of(alloc, text)?;
    form(&mut operands)
}

/// Reads a condition.
pub fn test_of(alloc: Global, text: &str) -> Result<Box<Cond>, AllocError> {
    let mut operands = operands_of(alloc, text)?;
    test(&mut operands)
}

/// Reads a goal: the stated bound and the computed form, which is infinity if it is missing. A
/// lower goal begins with `lower`.
pub fn goal_of(alloc: Global, text: &str, types: &str) -> Result<Goal, AllocError> {
    let (upper, text) = match text.strip_prefix("lower") {
        Some(rest) => (false, rest),
        None => (true, text),
    };
    let vars = types_of(alloc, types)?;
    let mut operands = operands_of(alloc, text)?;
    let last = Box::into_inner(form(&mut operands)?);
    match operands.forms.pop() {
        Some(stated) => Ok(goal(alloc, upper, Box::into_inner(stated), last, vars)),
        None => Ok(goal(alloc, upper, last, Form::Const(Ext::Inf), vars)),
    }
}
