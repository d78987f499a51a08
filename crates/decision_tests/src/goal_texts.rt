//! Results of the libraries for goals.

use crate::paths::path_with;
use crate::question_texts::{write_ask, write_cause};
use crate::test_goals::decision_of;
use crate::tree_texts::{leaves, tree_of, write_leaf, write_letters};
use farkas_check::check;
use goal_answers::{Checked, Decision, Tree};
use heylo_formula::Goal;
use linear_form::{RowList, ask, nonlinear, rows};
use std::alloc::{AllocError, Global};
use std::fmt::Write;
use test_lines::{cut, index};
use test_texts::{write_point, write_rows};

/// Writes the next comparison of the goal after these answers, or its end.
pub fn write_question(
    alloc: Global,
    goal: &Goal,
    answers: &str,
    text: &mut String,
) -> Result<(), AllocError> {
    match path_with(alloc, goal, answers)? {
        Some(path) => write_ask(&ask(alloc, goal, &path)?, text),
        None => text.push_str("none"),
    }
}

fn write_list(rows: &RowList, text: &mut String) -> Result<(), AllocError> {
    match rows {
        RowList::Rows(list) => write_rows(list, text),
        RowList::Bits => text.push_str("bits"),
    }
}

/// `answers ; +`: writes the rows of the path, with the denied goal if there is a plus sign.
pub fn write_path_rows(
    alloc: Global,
    goal: &Goal,
    rest: &str,
    text: &mut String,
) -> Result<(), AllocError> {
    let (answers, denied) = cut(rest, ';');
    match path_with(alloc, goal, answers)? {
        Some(path) => write_list(&rows(alloc, goal, &path, denied == "+")?, text),
        None => text.push_str("none"),
    }
}

/// Writes the place of the first product of two variables.
pub fn write_product(goal: &Goal, text: &mut String) -> Result<(), AllocError> {
    match nonlinear(goal) {
        Some(place) => write!(text, "{place}"),
        None => text.push_str("none"),
    }
}

fn write_refusal(answers: &[bool], text: &mut String) -> Result<(), AllocError> {
    text.push_str("no ")?;
    for answer in answers {
        text.push_str(if *answer { "t" } else { "f" })?;
    }
    Ok(())
}

fn write_checked(
    alloc: Global,
    goal: &Goal,
    tree: &Tree,
    text: &mut String,
) -> Result<(), AllocError> {
    match check(alloc, goal, tree)? {
        Checked::Yes => text.push_str("yes"),
        Checked::No(answers) => write_refusal(&answers, text),
    }
}

/// Writes whether a certificate is accepted, or the answers to the node at which it is refused.
pub fn write_check(
    alloc: Global,
    goal: &Goal,
    tree: &str,
    text: &mut String,
) -> Result<(), AllocError> {
    let tree = tree_of(alloc, tree)?;
    write_checked(alloc, goal, &tree, text)
}

fn write_proved(
    alloc: Global,
    goal: &Goal,
    tree: &Tree,
    text: &mut String,
) -> Result<(), AllocError> {
    let count = leaves(tree);
    write!(text, "proved {count} ")?;
    if count <= 100 {
        write_checked(alloc, goal, tree, text)?;
    }
    Ok(())
}

fn write_decided(
    alloc: Global,
    goal: &Goal,
    decision: &Decision,
    text: &mut String,
) -> Result<(), AllocError> {
    match decision {
        Decision::Proved(Some(tree)) => write_proved(alloc, goal, tree, text),
        Decision::Proved(None) => text.push_str("proved"),
        Decision::Falsified(point) => write_point("fails at ", point, text),
        Decision::Unknown(cause) => write_cause(cause, text),
    }
}

/// Writes the decision of the goal, and whether its certificate is accepted if it has at most 100
/// leaves.
pub fn write_decision(alloc: Global, goal: &Goal, text: &mut String) -> Result<(), AllocError> {
    write_decided(alloc, goal, &decision_of(alloc, goal)?, text)
}

fn write_tree(
    alloc: Global,
    goal: &Goal,
    tree: &Tree,
    leaf: u32,
    text: &mut String,
) -> Result<(), AllocError> {
    write_letters(tree, text)?;
    text.push_str(" ")?;
    write_leaf(tree, leaf, text)?;
    match check(alloc, goal, tree)? {
        Checked::Yes => Ok(()),
        Checked::No(_) => text.push_str("refused"),
    }
}

/// Writes the letters of the certificate's nodes, and the multipliers of the leaf with this number.
pub fn write_certificate(
    alloc: Global,
    goal: &Goal,
    leaf: &str,
    text: &mut String,
) -> Result<(), AllocError> {
    let leaf = index(leaf)?;
    match &decision_of(alloc, goal)? {
        Decision::Proved(Some(tree)) => write_tree(alloc, goal, tree, leaf, text),
        _ => text.push_str("none"),
    }
}
