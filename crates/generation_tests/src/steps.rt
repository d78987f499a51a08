//! The acts whose forms are made, and the posts after them.

ghost use Rattle.std.specs.Prelude.{◌<◌, IfOk};
ghost use Rattle.heyvl_num.specs.Rational.{zeroʳ, ◌≤ʳ◌};
ghost use Rattle.heylo_formula.specs.PlainTrees.{form_of};
ghost use Rattle.heyvl_acts.specs.PlainActs.{act_of, acts_of};
ghost use Rattle.heyvl_acts.specs.WellTypedActs.{ActsFit, IsProbability};
ghost use Rattle.generation_tests.specs.BooleanActs.{bools, IsCalm, AreCalm, StandsPlain};

use heylo_formula::{Cond, Form, Term, Ty};
use heylo_graph::{Graph, Node, NodeId};
use heyvl_acts::Act;
use heyvl_num::{Ext, Frac};
use heyvl_places::Span;
use std::alloc::{AllocError, Global};

/// An act of the variable 0.
#[derive(Clone, Copy)]
pub enum Step {
    /// A draw of true and false, each with the weight 1/2.
    Draw,
    /// A flip with the weight 1/3 if the variable is true, and 1/2 otherwise.
    Toss,
    /// A `covalidate`.
    Validate,
}

/// Returns a place of no file.
fn nowhere() -> Span {
    Span { from: 0, to: 0 }
}

/// Returns 1/`den`.
fn part_of_one(den: u32) -> Result<Frac, AllocError>
    requires { 0 < den }
    ensures { IfOk result (λ w. zeroʳ ≤ʳ w) }
{
    match Frac::new(1, den as i128) {
        Some(weight) => Ok(weight),
        None => Err(AllocError),
    }
}

/// Returns a draw of true and false.
fn draw(alloc: Global) -> Result<Act, AllocError>
    ensures { IfOk result (λ a. IsCalm (act_of a)) }
{
    let half = part_of_one(2)?;
    let heads = Term::Truth(Cond::Const(true));
    let tails = Term::Truth(Cond::Const(false));
    let parts = vec![in alloc; (half, heads), (half, tails)]?;
    Ok(Act::Draw(0, parts, nowhere()))
}

/// Returns the weight that is 1/3 if the variable 0 is true, and 1/2 otherwise.
fn weight(alloc: Global) -> Result<Form, AllocError>
    ensures { IfOk result (λ f. IsProbability bools (form_of f)) }
{
    let third = part_of_one(3)?;
    let half = part_of_one(2)?;
    let test = Box::new(alloc, Cond::Var(0))?;
    let first = Box::new(alloc, Form::Const(Ext::Fin(third)))?;
    let second = Box::new(alloc, Form::Const(Ext::Fin(half)))?;
    Ok(Form::Select(test, first, second))
}

/// Returns a flip of the variable 0.
fn toss(alloc: Global) -> Result<Act, AllocError>
    ensures { IfOk result (λ a. IsCalm (act_of a)) }
{
    let by = weight(alloc)?;
    Ok(Act::Toss(0, by, nowhere()))
}

fn act(alloc: Global, step: Step) -> Result<Act, AllocError>
    ensures { IfOk result (λ a. IsCalm (act_of a)) }
{
    match step {
        Step::Draw => draw(alloc),
        Step::Toss => toss(alloc),
        Step::Validate => Ok(Act::Validate(true, nowhere())),
    }
}

/// Returns `times` acts of this kind.
pub fn repeated(alloc: Global, step: Step, times: u64) -> Result<Vec<Act>, AllocError>
    ensures { IfOk result (λ acts. AreCalm (acts_of acts.items)) }
{
    let mut acts = Vec::new(alloc);
    'times: for i in 0..times {
        let next = act(alloc, step)?;
        acts.push(next)?;
    }
    Ok(acts)
}

/// Returns a flip of the variable 0, followed by a havoc of the variable 1.
pub fn before_any(alloc: Global) -> Result<Vec<Act>, AllocError>
    ensures { IfOk result (λ acts. ActsFit bools (acts_of acts.items)) }
{
    let first = toss(alloc)?;
    let acts = vec![in alloc; first, Act::Any(1, true, Ty::Bool, nowhere())]?;
    Ok(acts)
}

/// Returns the formula `[b0]`, which is 1 if the variable 0 is true, and 0 otherwise.
pub fn holds(graph: &mut Graph) -> Result<NodeId, AllocError>
    ensures { IfOk result (λ i. StandsPlain graph.new i) }
{
    let test = graph.join(Node::Flag(0))?;
    graph.join(Node::Iverson(test))
}

/// Returns the formula that is 1 if the variables 0 and 1 are the same, and 0 otherwise.
pub fn same(graph: &mut Graph) -> Result<NodeId, AllocError>
    ensures { IfOk result (λ i. StandsPlain graph.new i) }
{
    let first = graph.join(Node::Flag(0))?;
    let second = graph.join(Node::Flag(1))?;
    let test = graph.join(Node::Same(first, second))?;
    graph.join(Node::Iverson(test))
}
