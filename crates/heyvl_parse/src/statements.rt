//! The parser of statements and blocks.

ghost use Rattle.heyvl_parse.specs.readers.Combinators.{added, spanned, starts};
ghost use Rattle.heyvl_parse.specs.readers.Results.{Gives};
ghost use Rattle.heyvl_parse.specs.internal.Statements.{IfParts, Shortens, arm, braced, branched};
ghost use Rattle.heyvl_parse.specs.internal.Statements.{if_parts, if_tree, is_opening, key_opening};
ghost use Rattle.heyvl_parse.specs.internal.Statements.{kind_opening, link, loop_tree, looped};
ghost use Rattle.heyvl_parse.specs.internal.Statements.{mark_opening, next_of, opening, opens};
ghost use Rattle.heyvl_parse.specs.internal.Statements.{otherwise, picked, skip, stmt, stmts};
ghost use Rattle.heyvl_syntax.specs.Statements.{block, guarded, loop_rules, statement};
ghost use Rattle.std.specs.Prelude.{[], IfOk, length, map, suc, vec_capacity, vec_len, ◌++◌, ◌<◌};
ghost use Rattle.std.specs.Prelude.{◌∷◌, ◌≡◌, ◌≤◌, ℕ};

use crate::expressions::whole;
use crate::lists::{put, single};
use crate::loops::rules;
use crate::places::span_between;
use crate::sequels::beside;
use crate::simple::{assign, check, havoc, pick_word, reward, starts_pick, validate, var};
use crate::stops::PartStop;
use crate::tokens::{expect, expect_key, starts_key, starts_mark};
use heyvl_places::Span;
use heyvl_syntax::{Arm, Key, Mark, Rule, Stmt, Token, TokenKind};
use std::alloc::Global;

/// The kind of statement that a token begins.
#[derive(Clone, Copy)]
pub(crate) enum Opening {
    Var,
    /// An assignment or a call.
    Assign,
    Check,
    Validate,
    Havoc,
    Reward,
    If,
    /// `while`, or the `@` of a rule.
    Loop,
    /// No statement.
    Other,
}

/// What follows an arm of an `if`: a further arm, or the statements of the last `else`.
#[derive(Drop)]
pub(crate) enum Link {
    Again(Arm),
    Last(Vec<Stmt>),
}

fn key_opening(key: Key) -> Opening
    ensures { result ≡ key_opening key }
{
    match key {
        Key::Var => Opening::Var,
        Key::Assert => Opening::Check,
        Key::Assume => Opening::Check,
        Key::CoAssert => Opening::Check,
        Key::CoAssume => Opening::Check,
        Key::Validate => Opening::Validate,
        Key::CoValidate => Opening::Validate,
        Key::Havoc => Opening::Havoc,
        Key::CoHavoc => Opening::Havoc,
        Key::Reward => Opening::Reward,
        Key::Tick => Opening::Reward,
        Key::If => Opening::If,
        Key::While => Opening::Loop,
        _ => Opening::Other,
    }
}

fn mark_opening(mark: Mark) -> Opening
    ensures { result ≡ mark_opening mark }
{
    match mark {
        Mark::AtSign => Opening::Loop,
        _ => Opening::Other,
    }
}

fn kind_opening(kind: &TokenKind) -> Opening
    ensures { result ≡ kind_opening kind.now }
{
    match kind {
        TokenKind::Word(_) => Opening::Assign,
        TokenKind::Key(key) => key_opening(*key),
        TokenKind::Mark(mark) => mark_opening(*mark),
        TokenKind::Number(_) => Opening::Other,
    }
}

fn opening_at(tokens: &[Token]) -> Opening
    ensures { result ≡ opening tokens.now }
{
    match tokens.split_first() {
        None => Opening::Other,
        Some((token, _)) => kind_opening(&token.kind),
    }
}

fn opens(opening: Opening) -> bool
    ensures { result ≡ opens opening }
{
    match opening {
        Opening::Var => true,
        Opening::Assign => true,
        Opening::Check => true,
        Opening::Validate => true,
        Opening::Havoc => true,
        Opening::Reward => true,
        Opening::If => true,
        Opening::Loop => true,
        Opening::Other => false,
    }
}

/// Returns true if a statement begins with the first token.
fn starts_statement(tokens: &[Token]) -> bool
    ensures { result ≡ starts is_opening tokens.now }
{
    match tokens.split_first() {
        None => false,
        Some((token, _)) => opens(kind_opening(&token.kind)),
    }
}

/// Returns the tokens after the semicolons at the beginning.
fn skip(tokens: &[Token]) -> &[Token]
    ensures value { result.now ≡ skip tokens.now }
    ensures shorter { length result.now ≤ length tokens.now }
{
    let mut rest = tokens;
    'semis: while let Some((_, behind)) = rest.split_first() {
        if !starts_mark(Mark::Semi, rest) {
            break;
        }
        rest = behind;
    }
    rest
}

/// Reads the statements of a block with its braces.
#[cycle(statements)]
#[inline(always)]
pub(crate) fn block(alloc: Global, tokens: &[Token]) -> Result<(Vec<Stmt>, &[Token]), PartStop>
    ensures value { (n : ℕ) → length tokens.now ≤ n
        → Gives (λ x. block x.0.items) (λ x. x.1.now) result (braced (stmts n) tokens.now) }
    ensures shorter { IfOk result (λ x. length x.1.now < length tokens.now) }
{
    let (_, rest) = expect(Mark::BraceLeft, tokens)?;
    let (inner, rest) = statements(alloc, rest)?;
    let (_, rest) = expect(Mark::BraceRight, rest)?;
    Ok((inner, rest))
}

/// Reads statements as long as one begins.
#[cycle(statements)]
#[inline(never)]
fn statements(alloc: Global, tokens: &[Token]) -> Result<(Vec<Stmt>, &[Token]), PartStop>
    ensures value { (n : ℕ) → length tokens.now < n
        → Gives (λ x. block x.0.items) (λ x. x.1.now) result (stmts n tokens.now) }
    ensures shorter { IfOk result (λ x. length x.1.now ≤ length tokens.now) }
{
    let mut found = Vec::new(alloc);
    let mut rest = tokens;
    'items: while starts_statement(rest) {
        let behind = stmt(alloc, &mut found, rest)?;
        rest = skip(behind);
    }
    Ok((found, rest))
}

/// Appends a statement to `found`, and returns the tokens after it.
#[cycle(statements)]
#[inline(always)]
fn stmt<'a>(
    alloc: Global,
    found: &mut Vec<Stmt>,
    tokens: &'a [Token],
) -> Result<&'a [Token], PartStop>
    ensures value { (n : ℕ) → length tokens.now ≤ n
        → Gives (λ _. map statement found.new.items) (λ rest. rest.now) result
        (added (map statement found.old.items) (stmt (suc n) (braced (stmts n)) tokens.now)) }
    ensures shorter { IfOk result (λ rest. length rest.now < length tokens.now) }
{
    match opening_at(tokens) {
        Opening::Var => var(alloc, found, tokens),
        Opening::Assign => assign(alloc, found, tokens),
        Opening::Check => check(alloc, found, tokens),
        Opening::Validate => validate(found, tokens),
        Opening::Havoc => havoc(alloc, found, tokens),
        Opening::Reward => reward(alloc, found, tokens),
        Opening::If => if_at(alloc, found, tokens),
        Opening::Loop => looped(alloc, found, tokens),
        Opening::Other => Err(PartStop::Fault(tokens.len())),
    }
}

/// Appends an `if` of these parts to `found`, which has room for it. It is a separate function, so
/// that recursive readers have none of its stack.
#[inline(never)]
fn put_if(found: &mut Vec<Stmt>, parts: (Vec<Arm>, Vec<Stmt>), place: Span)
    requires { vec_len found.old < vec_capacity found.old }
    ensures { map statement found.new.items ≡ map statement found.old.items
        ++ (if_tree (IfParts.branching (map guarded parts.0.items, block parts.1.items)) place
        ∷ []) }
{
    found.push_reserved(Stmt::If(parts.0, parts.1, place));
}

/// Appends a choice of two blocks to `found`, which has room for it.
#[inline(never)]
fn put_pick(found: &mut Vec<Stmt>, parts: (bool, Vec<Stmt>, Vec<Stmt>), place: Span)
    requires { vec_len found.old < vec_capacity found.old }
    ensures { map statement found.new.items ≡ map statement found.old.items
        ++ (if_tree (IfParts.picking (parts.0, (block parts.1.items, block parts.2.items))) place
        ∷ []) }
{
    found.push_reserved(Stmt::Pick(parts.0, parts.1, parts.2, place));
}

/// Appends a loop with its rules, its guard and its body to `found`, which has room for it.
#[inline(never)]
fn put_while(found: &mut Vec<Stmt>, rules: Vec<Rule>, arm: Arm, place: Span)
    requires { vec_len found.old < vec_capacity found.old }
    ensures { map statement found.new.items ≡ map statement found.old.items
        ++ (loop_tree (loop_rules rules.items, guarded arm) place ∷ []) }
{
    found.push_reserved(Stmt::While(rules, arm.guard, arm.body, place));
}

/// Appends an `if` to `found`, and returns the tokens after it.
#[cycle(statements)]
#[inline(never)]
fn if_at<'a>(
    alloc: Global,
    found: &mut Vec<Stmt>,
    tokens: &'a [Token],
) -> Result<&'a [Token], PartStop>
    ensures value { (n : ℕ) → length tokens.now ≤ n
        → Gives (λ _. map statement found.new.items) (λ rest. rest.now) result
        (added (map statement found.old.items)
        (spanned if_tree (if_parts (suc n) (braced (stmts n))) tokens.now)) }
    ensures shorter { IfOk result (λ rest. length rest.now < length tokens.now) }
{
    found.reserve(1)?;
    let (_, rest) = expect_key(Key::If, tokens)?;
    if starts_pick(rest) {
        let (parts, rest) = picked(alloc, rest)?;
        put_pick(found, parts, span_between(tokens, rest));
        return Ok(rest);
    }
    let (parts, rest) = branched(alloc, rest)?;
    put_if(found, parts, span_between(tokens, rest));
    Ok(rest)
}

/// Reads what follows the `if` of a choice of two blocks.
#[cycle(statements)]
#[inline(never)]
fn picked(
    alloc: Global,
    tokens: &[Token],
) -> Result<((bool, Vec<Stmt>, Vec<Stmt>), &[Token]), PartStop>
    ensures value { (n : ℕ) → length tokens.now ≤ n
        → Gives (λ x. (x.0.0, (block x.0.1.items, block x.0.2.items))) (λ x. x.1.now) result
        (picked (braced (stmts n)) tokens.now) }
    ensures shorter { IfOk result (λ x. length x.1.now < length tokens.now) }
{
    let (up, rest) = pick_word(tokens)?;
    let (left, rest) = block(alloc, rest)?;
    let (right, rest) = otherwise(alloc, rest)?;
    Ok(((up, left, right), rest))
}

/// Reads `else` and its block, or nothing if the first token is not `else`.
#[cycle(statements)]
#[inline(always)]
fn otherwise(alloc: Global, tokens: &[Token]) -> Result<(Vec<Stmt>, &[Token]), PartStop>
    ensures value { (n : ℕ) → length tokens.now ≤ n
        → Gives (λ x. block x.0.items) (λ x. x.1.now) result
        (otherwise (braced (stmts n)) tokens.now) }
    ensures shorter { IfOk result (λ x. length x.1.now ≤ length tokens.now) }
{
    if starts_key(Key::Else, tokens) {
        let (_, rest) = expect_key(Key::Else, tokens)?;
        return block(alloc, rest);
    }
    Ok((Vec::new(alloc), tokens))
}

/// Reads a guard and its block.
#[cycle(statements)]
#[inline(always)]
fn arm(alloc: Global, tokens: &[Token]) -> Result<(Arm, &[Token]), PartStop>
    ensures value { (n : ℕ) → length tokens.now ≤ n
        → Gives (λ x. guarded x.0) (λ x. x.1.now) result
        (arm (suc n) (braced (stmts n)) tokens.now) }
    ensures shorter { IfOk result (λ x. length x.1.now < length tokens.now) }
{
    let (guard, rest) = whole(alloc, tokens)?;
    let (parts, rest) = beside(guard, block(alloc, rest))?;
    let found = Arm {
        guard: parts.0,
        body: parts.1,
    };
    Ok((found, rest))
}

/// Reads the arms of an `if`, and the block of the last `else`.
#[cycle(statements)]
#[inline(never)]
fn branched(alloc: Global, tokens: &[Token]) -> Result<((Vec<Arm>, Vec<Stmt>), &[Token]), PartStop>
    ensures value { (n : ℕ) → length tokens.now ≤ n
        → Gives (λ x. (map guarded x.0.0.items, block x.0.1.items)) (λ x. x.1.now) result
        (branched (suc n) (braced (stmts n)) tokens.now) }
    ensures shorter { IfOk result (λ x. length x.1.now < length tokens.now) }
{
    let (first, mut rest) = arm(alloc, tokens)?;
    let mut found = single(alloc, first)?;
    'arms: loop {
        let (one, behind) = link_at(alloc, rest)?;
        match one {
            Link::Last(last) => return Ok(((found, last), behind)),
            Link::Again(arm) => {
                put(&mut found, arm)?;
                rest = behind;
            }
        }
    }
}

/// Reads what follows an arm.
#[cycle(statements)]
#[inline(always)]
fn link_at(alloc: Global, tokens: &[Token]) -> Result<(Link, &[Token]), PartStop>
    ensures value { (n : ℕ) → length tokens.now ≤ n
        → Gives (λ x. next_of x.0) (λ x. x.1.now) result
        (link (suc n) (braced (stmts n)) tokens.now) }
    ensures shorter { IfOk result (λ x. Shortens x.0 (length x.1.now) (length tokens.now)) }
{
    if !starts_key(Key::Else, tokens) {
        return Ok((Link::Last(Vec::new(alloc)), tokens));
    }
    let (_, rest) = expect_key(Key::Else, tokens)?;
    if !starts_key(Key::If, rest) {
        let (last, rest) = block(alloc, rest)?;
        return Ok((Link::Last(last), rest));
    }
    let (_, rest) = expect_key(Key::If, rest)?;
    let (one, rest) = arm(alloc, rest)?;
    Ok((Link::Again(one), rest))
}

/// Appends a loop with its rules to `found`, and returns the tokens after it.
#[cycle(statements)]
#[inline(never)]
fn looped<'a>(
    alloc: Global,
    found: &mut Vec<Stmt>,
    tokens: &'a [Token],
) -> Result<&'a [Token], PartStop>
    ensures value { (n : ℕ) → length tokens.now ≤ n
        → Gives (λ _. map statement found.new.items) (λ rest. rest.now) result
        (added (map statement found.old.items)
        (spanned loop_tree (looped (suc n) (braced (stmts n))) tokens.now)) }
    ensures shorter { IfOk result (λ rest. length rest.now < length tokens.now) }
{
    found.reserve(1)?;
    let (rules, rest) = rules(alloc, tokens)?;
    let (_, rest) = expect_key(Key::While, rest)?;
    let (arm, rest) = arm(alloc, rest)?;
    put_while(found, rules, arm, span_between(tokens, rest));
    Ok(rest)
}
