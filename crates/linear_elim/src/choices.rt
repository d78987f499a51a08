//! The greedy point of solvable rows, from the steps that eliminated their variables.
ghost use Rattle.std.specs.Prelude.{◌≡◌, ◌<◌, ◌^◌, List, map, length, IfOk};
ghost use Rattle.std.specs.List.{All};
ghost use Rattle.heylo_formula.specs.declared.values.Val.TheVariants.{Num};
ghost use Rattle.linear_rows.specs.Row.{Row};
ghost use Rattle.linear_rows.specs.GreedyPoint.{value_for, IsStateOf};
ghost use Rattle.heylo_formula.specs.Typing.{types_in};
ghost use Rattle.linear_elim.specs.internal.Picks.{IsNextPick, IsDerivedStep};
ghost use Rattle.linear_elim.specs.internal.Choices.{IsChosen};
ghost use Rattle.linear_elim.specs.internal.Eliminations.{IsEliminated};

use crate::ends::{tightest, value_of};
use crate::steps::Step;
use goal_answers::Broken;
use heylo_formula::{Ty, Val};
use heyvl_num::Frac;
use interval_choice::{End, Pick, Side, taken_between};
use std::alloc::{AllocError, Global};

fn type_of(vars: &[Ty], x: u32) -> Ty
    ensures { result ≡ types_in vars.now x }
{
    match vars.get(x as usize) {
        Some(ty) => *ty,
        None => Ty::Bool,
    }
}

/// Returns the choice for the variable of `step` after the values `chosen`.
fn next_pick(step: &Step, chosen: &[(u32, Frac)], ty: Ty) -> Pick
    requires { IsDerivedStep step.now }
    ensures { IsNextPick step.now chosen.now ty result }
{
    let Ok(low) = tightest(Side::Low, &step.lows, step.var, chosen) else {
        return Pick::Great;
    };
    let Ok(high) = tightest(Side::High, &step.ups, step.var, chosen) else {
        return Pick::Great;
    };
    taken_between(&low, &high, ty)
}

fn numbers(alloc: Global, chosen: &[(u32, Frac)]) -> Result<Vec<(u32, Val)>, AllocError>
    ensures { IfOk result (λ v. v.items ≡ map (λ c. (c.0, Num c.1)) chosen.now) }
{
    let mut out: Vec<(u32, Val)> = Vec::new(alloc);
    for &(x, value) in chosen {
        out.push((x, Val::Num(value)))?;
    }
    Ok(out)
}

fn broken(
    alloc: Global,
    var: u32,
    chosen: &[(u32, Frac)],
    low: End,
    high: End,
) -> Result<Broken, AllocError>
    ensures var { IfOk result (λ b. b.var ≡ var) }
    ensures earlier { IfOk result (λ b. b.earlier.items ≡ map (λ c. (c.0, Num c.1)) chosen.now) }
    ensures low { IfOk result (λ b. b.low ≡ low.place) }
    ensures low_in { IfOk result (λ b. b.low_in ≡ low.inside) }
    ensures high { IfOk result (λ b. b.high ≡ high.place) }
    ensures high_in { IfOk result (λ b. b.high_in ≡ high.inside) }
{
    let earlier = numbers(alloc, chosen)?;
    Ok(Broken {
        var,
        earlier,
        low: low.place,
        low_in: low.inside,
        high: high.place,
        high_in: high.inside,
    })
}

fn value_as(ty: Ty, value: Frac) -> Val
    ensures { result ≡ value_for ty value }
{
    match ty {
        Ty::Bool => Val::Truth(false),
        Ty::Int => Val::Num(value),
        Ty::UInt => Val::Num(value),
        Ty::UReal => Val::Num(value),
    }
}

/// Returns a value for each variable: the chosen one, 0 if there is none, and false for a Boolean.
fn state(alloc: Global, vars: &[Ty], chosen: &[(u32, Frac)]) -> Result<Vec<Val>, AllocError>
    requires { length vars.now < 2 ^ 32 }
    ensures { IfOk result (λ p. IsStateOf vars.now chosen.now p.items) }
{
    let mut out: Vec<Val> = Vec::new(alloc);
    for i in 0..vars.len() {
        let ty = type_of(vars, i as u32);
        out.push(value_as(ty, value_of(chosen, i as u32)))?;
    }
    Ok(out)
}

/// The outcome of the greedy choice.
#[derive(Drop)]
pub enum Choice {
    /// The greedy point.
    Point(Vec<Val>),
    /// The variable at which the choice breaks: its interval contains no integer.
    Break(Broken),
    /// A number overflows.
    Great,
}

/// Chooses a value for each variable, in the reverse order of the steps, for rows that are solvable
/// by these steps.
pub fn greedy(alloc: Global, steps: &[Step], vars: &[Ty]) -> Result<Choice, AllocError>
    requires derived { All IsDerivedStep steps.now }
    requires few_variables { length vars.now < 2 ^ 32 }
    ensures { IfOk result (λ e. (rows : List Row) → IsEliminated rows vars.now steps.now
        → IsChosen rows vars.now steps.now e) }
{
    let mut chosen: Vec<(u32, Frac)> = Vec::new(alloc);
    let mut rest = steps;
    while let Some((step, before)) = rest.split_last() {
        match next_pick(step, &chosen, type_of(vars, step.var)) {
            Pick::Value(value) => chosen.push((step.var, value))?,
            Pick::Breaks(low, high) => {
                let found = broken(alloc, step.var, &chosen, low, high)?;
                return Ok(Choice::Break(found));
            }
            Pick::Great => return Ok(Choice::Great),
        }
        rest = before;
    }
    Ok(Choice::Point(state(alloc, vars, &chosen)?))
}
