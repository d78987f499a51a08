//! Questions of lines about goals.

use crate::goal_texts::{
    write_certificate, write_check, write_decision, write_path_rows, write_product, write_question,
};
use heylo_formula::Goal;
use std::alloc::{AllocError, Global};
use std::process::Abort;
use test_lines::{LineKind, cut, differences};
use test_texts::goal_of;

/// The question of a line about a goal.
#[derive(Clone, Copy)]
pub enum Kind {
    /// `goal ; answers`: its next comparison after these answers, or its end.
    Question,
    /// `goal ; types ; answers ; +`: the rows of the path, with the denied goal if there is a plus
    /// sign.
    Rows,
    /// `goal`: the place of its first product of two variables.
    Product,
    /// `goal ; types ; certificate`: whether it is accepted, or the answers to the node at which it
    /// is refused.
    Check,
    /// `goal ; types`: its decision, and whether the certificate is accepted if it has at most 100
    /// leaves.
    Decision,
    /// `goal ; types ; leaf`: the letters of the certificate's nodes, and the multipliers of the
    /// leaf with this number.
    Certificate,
}

fn write_of_goal(
    alloc: Global,
    kind: Kind,
    goal: &Goal,
    rest: &str,
    text: &mut String,
) -> Result<(), AllocError> {
    match kind {
        Kind::Question => write_question(alloc, goal, rest, text),
        Kind::Rows => write_path_rows(alloc, goal, rest, text),
        Kind::Product => write_product(goal, text),
        Kind::Check => write_check(alloc, goal, rest, text),
        Kind::Decision => write_decision(alloc, goal, text),
        Kind::Certificate => write_certificate(alloc, goal, rest, text),
    }
}

/// Splits the text after the goal into the types of the variables, which lines of some kinds have,
/// and the rest.
fn types_and_rest(kind: Kind, text: &str) -> (&str, &str) {
    match kind {
        Kind::Question | Kind::Product => ("", text),
        _ => cut(text, ';'),
    }
}

impl LineKind for Kind {
    fn write_answer(
        &self,
        alloc: Global,
        asked: &str,
        text: &mut String,
    ) -> Result<(), AllocError> {
        let (goal, rest) = cut(asked, ';');
        let (types, rest) = types_and_rest(*self, rest);
        write_of_goal(alloc, *self, &goal_of(alloc, goal, types)?, rest, text)
    }
}

/// Checks each line of each text.
pub fn check_texts(
    rt: &(impl Abort + AllocGlobal),
    kind: Kind,
    texts: &[&str],
) -> Result<(), AllocError> {
    let found = differences(rt.alloc(), &kind, texts)?;
    assert!(rt; found.is_empty(), "{found}");
    Ok(())
}
