//! The rules before a loop.

ghost use Rattle.heylo_formula.specs.Formula.{Form as PlainForm};
ghost use Rattle.heylo_formula.specs.PlainTrees.{cond_of, form_of};
ghost use Rattle.heyvl_num.specs.Value.Value.{infinite};
ghost use Rattle.heyvl_syntax.specs.Statements.{LoopRule, loop_rule, loop_rules};
ghost use Rattle.heyvl_acts.specs.Acts.{Act as Plain};
ghost use Rattle.typed_expressions.specs.Answers.{Gives, TellsFirst};
ghost use Rattle.typed_right_sides.specs.Views.{acts_view};
ghost use Rattle.typed_expressions.specs.Views.{meaning_of, read};
ghost use Rattle.typed_expressions.specs.Findings.{at};
ghost use Rattle.static_rules.specs.LoopRules.{copies_wrong, count_of_rankings, formula};
ghost use Rattle.static_rules.specs.LoopRules.{is_ranking, rule_findings, rules_findings};
ghost use Rattle.static_rules.specs.LoopRules.{rules_wrong, step_wrong, steps_over_zero};
ghost use Rattle.heyvl_acts.specs.PlainActs.{act_of};
ghost use Rattle.typed_expressions.specs.Scopes.{Scope as Visible, numbers};
ghost use Rattle.static_rules.specs.StatementActs.{copies_of};
ghost use Rattle.typed_expressions.specs.TypedExpressions.{elaborate};
ghost use Rattle.typed_right_sides.specs.LoopHeads.{found_of, found_with, or_invariant};
ghost use Rattle.typed_right_sides.specs.LoopHeads.{rules_found};
ghost use Rattle.std.specs.List.{list_any};
ghost use Rattle.std.specs.Prelude.{◌&&◌, ◌≡◌, ◌∷◌, [], IfOk, List, Some, not, ℕ};

use crate::choices::read_weight;
use crate::integers::copies;
use crate::weights::{is_over_zero, is_step, weight_of, weight_value};
use heylo_formula::{Cond, Form};
use heyvl_acts::{Act, LoopAct};
use heyvl_num::{Ext, Frac};
use heyvl_places::Span;
use heyvl_syntax::Rule;
use std::alloc::{AllocError, Global};
use typed_expressions::{Demand, Meaning, ResolveStop, Scope, form, meets, read, told};

/// The invariant and the ranking that the rules before a loop give.
#[derive(Drop)]
pub struct Found {
    /// The first invariant.
    pub invariant: Option<Form>,
    /// The first ranking with its step.
    pub rank: Option<(Frac, Form)>,
    /// Whether one of the invariants and rankings is not a formula of type UInt, UReal or EUReal.
    pub misses: bool,
}

/// Elaborates the formula of a rule, or returns the first error in the rule's parts.
fn read_rule(alloc: Global, scope: &Scope, next: u32, rule: &Rule) -> Result<Meaning, ResolveStop>
    ensures { Gives read result (rule_findings next scope.now (loop_rule rule.now))
        (elaborate next scope.now (formula (loop_rule rule.now))) }
{
    match rule {
        Rule::Invariant(invariant, _) => read(alloc, scope, next, invariant, Demand::Any),
        Rule::KInduction(k, invariant, _) => {
            read(alloc, scope, next, k, Demand::Any)?;
            read(alloc, scope, next, invariant, Demand::Any)
        }
        Rule::Ranking(step, ranking, _) => {
            read_weight(alloc, scope, next, step)?;
            read(alloc, scope, next, ranking, Demand::Any)
        }
    }
}

/// Adds a rule, whose formula is elaborated to `made`, to the result of the earlier rules. An
/// earlier rule of its kind remains.
fn with_rule(found: Found, rule: &Rule, made: Meaning) -> Found
    ensures { (n : ℕ) (sc : Visible) (rs : List LoopRule)
        → elaborate n sc (formula (loop_rule rule.now)) ≡ Some (meaning_of made)
        → found_with result n sc rs ≡ found_with found n sc (loop_rule rule.now ∷ rs) }
{
    let fits = meets(Demand::Formula, &made);
    let misses = found.misses || !fits;
    match rule {
        Rule::Ranking(step, _, _) => Found {
            invariant: found.invariant,
            rank: found
                .rank
                .or(Some((weight_value(weight_of(step)), form(made)))),
            misses,
        },
        Rule::Invariant(_, _) | Rule::KInduction(_, _, _) => Found {
            invariant: found.invariant.or(Some(form(made))),
            rank: found.rank,
            misses,
        },
    }
}

/// Returns the invariant and the ranking that the rules before a loop give.
///
/// # Errors
///
/// `Fault` with the first static error in the parts of the rules, or `Memory`.
pub fn read_rules(
    alloc: Global,
    scope: &Scope,
    next: u32,
    rules: &[Rule],
) -> Result<Found, ResolveStop>
    ensures { Gives found_of result (rules_findings next scope.now (loop_rules rules.now))
        (rules_found next scope.now (loop_rules rules.now)) }
{
    let mut found = Found {
        invariant: None,
        rank: None,
        misses: false,
    };
    for rule in rules {
        let formula = read_rule(alloc, scope, next, rule)?;
        found = with_rule(found, rule, formula);
    }
    Ok(found)
}

/// Returns the number of copies of the first invariant, or 1 if it has none.
pub(crate) fn copies_of(rules: &[Rule]) -> u32
    ensures { result ≡ copies_of (loop_rules rules.now) }
{
    for rule in rules {
        match rule {
            Rule::Invariant(_, _) => return 1,
            Rule::KInduction(k, _, _) => return copies(k).unwrap_or(1),
            Rule::Ranking(_, _, _) => {}
        }
    }
    1
}

/// Returns true for a ranking whose step is not a weight literal above 0.
fn step_wrong(rule: &Rule) -> bool
    ensures { result ≡ step_wrong (loop_rule rule.now) }
{
    match rule {
        Rule::Ranking(step, _, _) => !is_step(weight_of(step)),
        Rule::Invariant(_, _) | Rule::KInduction(_, _, _) => false,
    }
}

/// Returns true for a ranking whose step has the divisor 0.
fn steps_over_zero(rule: &Rule) -> bool
    ensures { result ≡ steps_over_zero (loop_rule rule.now) }
{
    match rule {
        Rule::Ranking(step, _, _) => is_over_zero(weight_of(step)),
        Rule::Invariant(_, _) | Rule::KInduction(_, _, _) => false,
    }
}

/// Returns true if the number of copies is not one from 1 to 16.
fn copies_wrong(rule: &Rule) -> bool
    ensures { result ≡ copies_wrong (loop_rule rule.now) }
{
    match rule {
        Rule::KInduction(k, _, _) => copies(k).is_none(),
        Rule::Invariant(_, _) | Rule::Ranking(_, _, _) => false,
    }
}

fn is_ranking(rule: &Rule) -> bool
    ensures { result ≡ is_ranking (loop_rule rule.now) }
{
    matches!(rule, Rule::Ranking(_, _, _))
}

fn any_step_wrong(rules: &[Rule]) -> bool
    ensures { result ≡ list_any step_wrong (loop_rules rules.now) }
{
    for rule in rules {
        if step_wrong(rule) {
            return true;
        }
    }
    false
}

fn any_over_zero(rules: &[Rule]) -> bool
    ensures { result ≡ list_any steps_over_zero (loop_rules rules.now) }
{
    for rule in rules {
        if steps_over_zero(rule) {
            return true;
        }
    }
    false
}

fn any_copies_wrong(rules: &[Rule]) -> bool
    ensures { result ≡ list_any copies_wrong (loop_rules rules.now) }
{
    for rule in rules {
        if copies_wrong(rule) {
            return true;
        }
    }
    false
}

fn any_ranking(rules: &[Rule]) -> bool
    ensures { result ≡ list_any is_ranking (loop_rules rules.now) }
{
    for rule in rules {
        if is_ranking(rule) {
            return true;
        }
    }
    false
}

/// Returns true unless there is exactly one invariant and at most one ranking.
fn rules_wrong(rules: &[Rule]) -> bool
    ensures { result ≡ rules_wrong (loop_rules rules.now) }
{
    let mut invariants: usize = 0;
    let mut rankings: usize = 0;
    for rule in rules {
        if is_ranking(rule) {
            rankings += 1;
        } else {
            invariants += 1;
        }
    }
    invariants != 1 || rankings > 1
}

/// Returns the first broken rule of a loop as an error at `span`. `misses` says that an invariant
/// or a ranking is not a formula of type UInt, UReal or EUReal, and `rankable` that a loop with a
/// ranking may have the body.
pub fn told_of_loop(
    rules: &[Rule],
    misses: bool,
    rankable: bool,
    span: Span,
) -> Result<(), ResolveStop>
    ensures { TellsFirst result
        (at span ((12, misses) ∷ (15, list_any step_wrong (loop_rules rules.now))
        ∷ (16, list_any steps_over_zero (loop_rules rules.now))
        ∷ (18, rules_wrong (loop_rules rules.now))
        ∷ (19, list_any copies_wrong (loop_rules rules.now))
        ∷ (22, list_any is_ranking (loop_rules rules.now) && not rankable) ∷ [])) }
{
    told(
        span,
        &[
            (12, misses),
            (15, any_step_wrong(rules)),
            (16, any_over_zero(rules)),
            (18, rules_wrong(rules)),
            (19, any_copies_wrong(rules)),
            (22, any_ranking(rules) && !rankable),
        ],
    )
}

/// Returns the invariant, or infinity if there is none.
fn or_infinity(invariant: Option<Form>) -> Form
    ensures { form_of result ≡ or_invariant invariant (PlainForm.number infinite) }
{
    match invariant {
        Some(invariant) => invariant,
        None => Form::Const(Ext::Inf),
    }
}

/// Returns the act of a loop from its guard, its body and the result `found` of its rules.
pub fn loop_act(
    alloc: Global,
    number: u32,
    rules: &[Rule],
    found: Found,
    guard: Cond,
    scope: &Scope,
    body: Vec<Act>,
    span: Span,
) -> Result<Act, AllocError>
    ensures { IfOk result (λ act. act_of act
        ≡ Plain.loop
        (record {
          number = number;
          k = copies_of (loop_rules rules.now);
          inv = (found_of found).invariant;
          guard = cond_of guard;
          rank = (found_of found).rank;
          scope = numbers scope.now;
          span = span;
        }) (acts_view body)) }
{
    let scope = scope.numbers(alloc)?;
    let one = LoopAct {
        number,
        k: copies_of(rules),
        inv: or_infinity(found.invariant),
        guard,
        body,
        rank: found.rank,
        scope,
        span,
    };
    Ok(Act::Loop(Box::new(alloc, one)?))
}
