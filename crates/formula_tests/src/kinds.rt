//! Questions of lines about numbers and formulas.

use crate::formula_tests::{write_condition_size, write_renaming, write_size, write_substitution};
use crate::graph_tests::{write_coins, write_put};
use crate::number_tests::write_operation;
use crate::value_tests::{held, write_value};
use heylo_formula::Form;
use quant_algebra::{goal_at, holds_at};
use std::alloc::{AllocError, Global};
use std::process::Abort;
use test_lines::{LineKind, cut, differences};
use test_texts::{form_of, goal_of, test_of};

/// The question of a line.
#[derive(Clone, Copy)]
pub enum Kind {
    /// `operation`: the result of an operation on numbers.
    Number,
    Form(OfForm),
    Condition(OfCondition),
    /// `goal`: whether it holds.
    Goal,
    /// `number`: the sizes in a graph of a formula after so many flips.
    Coins,
}

/// The question of a line about a form.
#[derive(Clone, Copy)]
pub enum OfForm {
    /// `form ; state`: its value.
    Value,
    /// `form ; variable ; form`: the first form, with the second one for the variable.
    Substitution,
    /// `form ; variable ; variable`: the form, with the second variable for the first one.
    Renaming,
    /// `form ; variable`: whether it is free and whether it occurs, then the number of nodes and
    /// the depth of the form.
    Size,
    /// `form`: its sizes in a graph to which it is added twice.
    Put,
}

/// The question of a line about a condition, which is the whole line.
#[derive(Clone, Copy)]
pub enum OfCondition {
    /// Whether it holds.
    Truth,
    /// The number of its nodes, and its depth.
    Size,
}

fn write_of_form(
    alloc: Global,
    of: OfForm,
    form: &Form,
    rest: &str,
    text: &mut String,
) -> Result<(), AllocError> {
    match of {
        OfForm::Value => write_value(alloc, form, rest, text),
        OfForm::Substitution => write_substitution(alloc, form, rest, text),
        OfForm::Renaming => write_renaming(alloc, form, rest, text),
        OfForm::Size => write_size(form, rest, text),
        OfForm::Put => write_put(alloc, form, text),
    }
}

fn write_form(alloc: Global, of: OfForm, asked: &str, text: &mut String) -> Result<(), AllocError> {
    let (form, rest) = cut(asked, ';');
    let form = form_of(alloc, form)?;
    write_of_form(alloc, of, &form, rest, text)
}

fn write_condition(
    alloc: Global,
    of: OfCondition,
    asked: &str,
    text: &mut String,
) -> Result<(), AllocError> {
    let condition = test_of(alloc, asked)?;
    match of {
        OfCondition::Truth => text.push_str(held(holds_at(&condition, &[]))),
        OfCondition::Size => write_condition_size(&condition, text),
    }
}

fn write_truth(alloc: Global, asked: &str, text: &mut String) -> Result<(), AllocError> {
    let goal = goal_of(alloc, asked.trim(), "")?;
    text.push_str(held(goal_at(&goal, &[])))
}

impl LineKind for Kind {
    fn write_answer(
        &self,
        alloc: Global,
        asked: &str,
        text: &mut String,
    ) -> Result<(), AllocError> {
        match *self {
            Kind::Number => write_operation(asked, text),
            Kind::Form(of) => write_form(alloc, of, asked, text),
            Kind::Condition(of) => write_condition(alloc, of, asked, text),
            Kind::Goal => write_truth(alloc, asked, text),
            Kind::Coins => write_coins(alloc, asked.trim(), text),
        }
    }
}

/// Checks each line of each text.
pub fn check_texts(
    rt: &(impl Abort + AllocGlobal),
    kind: Kind,
    texts: &[&str],
) -> Result<(), AllocError> {
    let found = differences(rt.alloc(), &kind, texts)?;
    assert!(rt; found.is_empty(), "{found}");
    Ok(())
}
