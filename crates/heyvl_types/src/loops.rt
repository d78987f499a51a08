//! Loops without their bodies: their rules and guards, and their acts.

ghost use Rattle.heylo_formula.specs.PlainTrees.{cond_of};
ghost use Rattle.heyvl_syntax.specs.Expressions.{expression};
ghost use Rattle.heyvl_syntax.specs.Statements.{block, loop_rules};
ghost use Rattle.heyvl_acts.specs.Acts.{Act as Plain, Acts};
ghost use Rattle.typed_expressions.specs.Answers.{Gives};
ghost use Rattle.typed_right_sides.specs.Views.{acts_view};
ghost use Rattle.typed_expressions.specs.Findings.{at};
ghost use Rattle.static_rules.specs.LoopRules.{copies_wrong, is_ranking, rules_findings};
ghost use Rattle.static_rules.specs.LoopRules.{rules_wrong, step_wrong, steps_over_zero};
ghost use Rattle.typed_expressions.specs.Scopes.{numbers};
ghost use Rattle.static_rules.specs.StatementActs.{copies_of};
ghost use Rattle.typed_expressions.specs.Values.{condition};
ghost use Rattle.static_rules.specs.StatementRules.{block_is_rankable};
ghost use Rattle.typed_expressions.specs.TypedExpressions.{closed_findings, elaborate};
ghost use Rattle.typed_right_sides.specs.LoopHeads.{found_of, head_of, rules_found};
ghost use Rattle.std.specs.List.{list_any};
ghost use Rattle.std.specs.Prelude.{◌&&◌, ◌++◌, ◌<◌, ◌^◌, ◌∷◌, [], length, not};

use crate::bindings::block_is_rankable;
use crate::statements::{next_number, single};
use heylo_formula::Cond;
use heyvl_acts::{Act, VarInfo};
use heyvl_places::Span;
use heyvl_syntax::{Expr, Rule, Stmt};
use std::alloc::Global;
use typed_expressions::{Demand, ResolveStop, Scope, condition, read};
use typed_right_sides::{Found, loop_act, read_rules, told_of_loop};

/// Returns the result of the rules of a loop and its guard, or the first error in them.
pub(crate) fn read_head(
    alloc: Global,
    scope: &Scope,
    vars: &[VarInfo],
    rules: &[Rule],
    guard: &Expr,
) -> Result<(Found, Cond), ResolveStop>
    requires { length vars.now < 2 ^ 32 }
    ensures { Gives head_of result
        (rules_findings (length vars.now) scope.now (loop_rules rules.now)
        ++ closed_findings Demand.Truth (length vars.now) scope.now (expression guard.now)) (
          rules_found (length vars.now) scope.now (loop_rules rules.now),
          condition (elaborate (length vars.now) scope.now (expression guard.now)),
        ) }
{
    let next = next_number(vars);
    let found = read_rules(alloc, scope, next, rules)?;
    let guard = read(alloc, scope, next, guard, Demand::Truth)?;
    Ok((found, condition(guard)))
}

/// Returns the act of a loop whose body has the acts `made`, or the first broken rule of the loop
/// itself.
pub(crate) fn close_loop(
    alloc: Global,
    number: u32,
    rules: &[Rule],
    found: Found,
    guard: Cond,
    scope: &Scope,
    made: Vec<Act>,
    body: &[Stmt],
    span: Span,
) -> Result<Vec<Act>, ResolveStop>
    ensures { Gives acts_view result
        (at span ((12, (found_of found).misses) ∷ (15, list_any step_wrong (loop_rules rules.now))
        ∷ (16, list_any steps_over_zero (loop_rules rules.now))
        ∷ (18, rules_wrong (loop_rules rules.now))
        ∷ (19, list_any copies_wrong (loop_rules rules.now))
        ∷ (
          22,
          list_any is_ranking (loop_rules rules.now)
              && not (block_is_rankable (block body.now)),
        ) ∷ []))
        (Acts.next (Plain.loop
        (record {
          number = number;
          k = copies_of (loop_rules rules.now);
          inv = (found_of found).invariant;
          guard = cond_of guard;
          rank = (found_of found).rank;
          scope = numbers scope.now;
          span = span;
        }) (acts_view made)) Acts.done) }
{
    told_of_loop(rules, found.misses, block_is_rankable(body), span)?;
    let act = loop_act(alloc, number, rules, found, guard, scope, made, span)?;
    Ok(single(alloc, act)?)
}
