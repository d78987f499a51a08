//! Comparisons and causes as texts.

use goal_answers::Cause;
use linear_form::{Ask, Atom};
use linear_values::Lin;
use std::alloc::AllocError;
use std::fmt::Write;
use test_texts::{sign, write_broken, write_fraction};

fn write_lin(value: &Lin, text: &mut String) -> Result<(), AllocError> {
    for (variable, coefficient) in value.terms.as_slice() {
        write_fraction(coefficient, text)?;
        write!(text, "x{variable} ")?;
    }
    write_fraction(&value.rest, text)
}

fn write_atom(atom: &Atom, text: &mut String) -> Result<(), AllocError> {
    match atom {
        Atom::Truth(x) => write!(text, "b{x}"),
        Atom::Row(value, strict) => {
            write_lin(value, text)?;
            text.push_str(sign(*strict))
        }
    }
}

/// Writes the next comparison, or the stated bound at the end.
pub fn write_ask(ask: &Ask, text: &mut String) -> Result<(), AllocError> {
    match ask {
        Ask::Decide(atom) => write_atom(atom, text),
        Ask::End(Some(value), _) => {
            text.push_str("= ")?;
            write_lin(value, text)
        }
        Ask::End(None, _) => text.push_str("= inf"),
        Ask::Bits => text.push_str("bits"),
    }
}

/// Writes the cause for which a goal is not decided.
pub fn write_cause(cause: &Cause, text: &mut String) -> Result<(), AllocError> {
    match cause {
        Cause::Depth => text.push_str("depth"),
        Cause::Nodes => text.push_str("nodes"),
        Cause::Nonlinear(place) => write!(text, "nonlinear at {place}"),
        Cause::Cells(count) => write!(text, "cells {count}"),
        Cause::Rows(steps, count) => write!(text, "rows {steps} {count}"),
        Cause::Bits => text.push_str("bits"),
        Cause::Fraction(broken) => write_broken(broken, text),
    }
}
