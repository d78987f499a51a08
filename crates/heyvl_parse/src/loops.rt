//! The parser of the rules of loops.

ghost use Rattle.heyvl_parse.specs.internal.Loops.{kind_rule, rule, rule_start, rules, word_rule};
ghost use Rattle.heyvl_parse.specs.readers.Results.{Gives};
ghost use Rattle.heyvl_syntax.specs.Statements.{loop_rule, loop_rules};
ghost use Rattle.std.specs.Prelude.{IfOk, length, ◌<◌, ◌≡◌, ◌≤◌, ℕ};

use crate::places::span_between;
use crate::rights::{enclosed_expr, two};
use crate::stops::PartStop;
use crate::tokens::{expect, expect_word, starts_mark};
use heyvl_places::Name;
use heyvl_syntax::{Mark, Rule, Token, TokenKind};
use std::alloc::Global;

/// The rule that the identifier after `@` names.
#[derive(Clone, Copy)]
pub(crate) enum RuleStart {
    /// `invariant`
    Invariant,
    /// `k_induction`
    KInduction,
    /// `ranking`
    Ranking,
    /// Any other token.
    Other,
}

fn word_rule(name: &Name) -> RuleStart
    ensures { result ≡ word_rule name.now }
{
    let bytes = name.as_bytes();
    if bytes == b"invariant".as_slice() {
        RuleStart::Invariant
    } else if bytes == b"k_induction".as_slice() {
        RuleStart::KInduction
    } else if bytes == b"ranking".as_slice() {
        RuleStart::Ranking
    } else {
        RuleStart::Other
    }
}

fn kind_rule(kind: &TokenKind) -> RuleStart
    ensures { result ≡ kind_rule kind.now }
{
    match kind {
        TokenKind::Word(name) => word_rule(name),
        TokenKind::Key(_) => RuleStart::Other,
        TokenKind::Number(_) => RuleStart::Other,
        TokenKind::Mark(_) => RuleStart::Other,
    }
}

fn rule_start(tokens: &[Token]) -> RuleStart
    ensures { result ≡ rule_start tokens.now }
{
    match tokens.split_first() {
        None => RuleStart::Other,
        Some((token, _)) => kind_rule(&token.kind),
    }
}

/// Reads a rule.
#[inline(never)]
fn rule(alloc: Global, tokens: &[Token]) -> Result<(Rule, &[Token]), PartStop>
    ensures value { (n : ℕ) → length tokens.now < n
        → Gives (λ x. loop_rule x.0) (λ x. x.1.now) result (rule n tokens.now) }
    ensures shorter { IfOk result (λ x. length x.1.now < length tokens.now) }
{
    let (_, start) = expect(Mark::AtSign, tokens)?;
    match rule_start(start) {
        RuleStart::Invariant => {
            let (_, rest) = expect_word(b"invariant", start)?;
            let (invariant, rest) = enclosed_expr(alloc, rest)?;
            Ok((Rule::Invariant(invariant, span_between(tokens, rest)), rest))
        }
        RuleStart::KInduction => {
            let (_, rest) = expect_word(b"k_induction", start)?;
            let (parts, rest) = two(alloc, rest)?;
            Ok((
                Rule::KInduction(parts.0, parts.1, span_between(tokens, rest)),
                rest,
            ))
        }
        RuleStart::Ranking => {
            let (_, rest) = expect_word(b"ranking", start)?;
            let (parts, rest) = two(alloc, rest)?;
            Ok((
                Rule::Ranking(parts.0, parts.1, span_between(tokens, rest)),
                rest,
            ))
        }
        RuleStart::Other => Err(PartStop::Fault(start.len())),
    }
}

/// Reads rules as long as one begins.
#[inline(never)]
pub(crate) fn rules(alloc: Global, tokens: &[Token]) -> Result<(Vec<Rule>, &[Token]), PartStop>
    ensures value { (n : ℕ) → length tokens.now < n
        → Gives (λ x. loop_rules x.0.items) (λ x. x.1.now) result (rules n tokens.now) }
    ensures shorter { IfOk result (λ x. length x.1.now ≤ length tokens.now) }
{
    let mut found = Vec::new(alloc);
    let mut rest = tokens;
    'items: while starts_mark(Mark::AtSign, rest) {
        let (one, behind) = rule(alloc, rest)?;
        found.push(one)?;
        rest = behind;
    }
    Ok((found, rest))
}
