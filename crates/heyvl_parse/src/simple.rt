//! The parser of the statements without blocks. Each function appends a statement: it reserves the
//! room first, and then builds the statement in its place. It returns the tokens after the
//! statement.

ghost use Rattle.heyvl_parse.specs.readers.Combinators.{added, kind, optional, sign, spanned};
ghost use Rattle.heyvl_parse.specs.readers.Combinators.{starts};
ghost use Rattle.heyvl_parse.specs.readers.ReadParts.{is_mark, mapped};
ghost use Rattle.heyvl_parse.specs.readers.Results.{Gives};
ghost use Rattle.heyvl_parse.specs.internal.Rights.{call, right};
ghost use Rattle.heyvl_parse.specs.internal.Statements.{alone, assign_tree, assigned, by_key};
ghost use Rattle.heyvl_parse.specs.internal.Statements.{check_tree, checked, declared, given};
ghost use Rattle.heyvl_parse.specs.internal.Statements.{havoc_tree, havocked, is_pick, is_reward};
ghost use Rattle.heyvl_parse.specs.internal.Statements.{key_check, key_havoc, key_pick};
ghost use Rattle.heyvl_parse.specs.internal.Statements.{key_validate, rewarded, valued, var_tree};
ghost use Rattle.heyvl_syntax.specs.Statements.{Statement, optional_right, right_side, statement};
ghost use Rattle.heyvl_syntax.specs.declared.marks.Mark.TheVariants as marks;
ghost use Rattle.std.specs.Prelude.{IfOk, length, map, ◌<◌, ◌≡◌, ◌≤◌, ℕ};

use crate::expressions::whole;
use crate::leaves::{is_alone, leaf};
use crate::lists::names;
use crate::places::span_between;
use crate::rights::{call, is_call, right};
use crate::stops::PartStop;
use crate::tokens::{expect, expect_key, is_key, key_at, known, next, starts_mark};
use crate::typed_names::typed_name;
use heyvl_places::{CheckKind, Name, Span};
use heyvl_syntax::{Key, Mark, Right, Stmt, Token, TokenKind};
use std::alloc::Global;

/// Returns the check that a keyword begins, if it begins one.
fn check_of(key: Key) -> Option<CheckKind>
    ensures { result ≡ key_check key }
{
    match key {
        Key::Assert => Some(CheckKind::Assert),
        Key::Assume => Some(CheckKind::Assume),
        Key::CoAssert => Some(CheckKind::CoAssert),
        Key::CoAssume => Some(CheckKind::CoAssume),
        _ => None,
    }
}

/// Reads the keyword of a check.
fn check_word(tokens: &[Token]) -> Result<(CheckKind, &[Token]), PartStop>
    ensures value { Gives (λ x. x.0) (λ x. x.1.now) result (kind (by_key key_check) tokens.now) }
    ensures shorter { IfOk result (λ x. length x.1.now < length tokens.now) }
{
    let (key, rest) = key_at(tokens)?;
    known(check_of(key), tokens, rest)
}

fn validate_of(key: Key) -> Option<bool>
    ensures { result ≡ key_validate key }
{
    match key {
        Key::Validate => Some(false),
        Key::CoValidate => Some(true),
        _ => None,
    }
}

/// Reads `validate` or `covalidate`, and returns true for `covalidate`.
fn validate_word(tokens: &[Token]) -> Result<(bool, &[Token]), PartStop>
    ensures value { Gives (λ x. x.0) (λ x. x.1.now) result (kind (by_key key_validate) tokens.now) }
    ensures shorter { IfOk result (λ x. length x.1.now < length tokens.now) }
{
    let (key, rest) = key_at(tokens)?;
    known(validate_of(key), tokens, rest)
}

fn havoc_of(key: Key) -> Option<bool>
    ensures { result ≡ key_havoc key }
{
    match key {
        Key::Havoc => Some(false),
        Key::CoHavoc => Some(true),
        _ => None,
    }
}

/// Reads `havoc` or `cohavoc`, and returns true for `cohavoc`.
fn havoc_word(tokens: &[Token]) -> Result<(bool, &[Token]), PartStop>
    ensures value { Gives (λ x. x.0) (λ x. x.1.now) result (kind (by_key key_havoc) tokens.now) }
    ensures shorter { IfOk result (λ x. length x.1.now < length tokens.now) }
{
    let (key, rest) = key_at(tokens)?;
    known(havoc_of(key), tokens, rest)
}

fn is_reward(kind: &TokenKind) -> bool
    ensures { result ≡ is_reward kind.now }
{
    is_key(Key::Reward, kind) || is_key(Key::Tick, kind)
}

/// Reads `reward` or `tick`, and returns its place.
fn reward_word(tokens: &[Token]) -> Result<(Span, &[Token]), PartStop>
    ensures value { Gives (λ x. x.0) (λ x. x.1.now) result (sign is_reward tokens.now) }
    ensures shorter { IfOk result (λ x. length x.1.now < length tokens.now) }
{
    let (token, rest) = next(tokens)?;
    if is_reward(&token.kind) {
        Ok((token.span, rest))
    } else {
        Err(PartStop::Fault(tokens.len()))
    }
}

fn pick_of(key: Key) -> Option<bool>
    ensures { result ≡ key_pick key }
{
    match key {
        Key::Cap => Some(false),
        Key::Cup => Some(true),
        _ => None,
    }
}

/// Reads `\cap` or `\cup`, and returns true for `\cup`.
pub(crate) fn pick_word(tokens: &[Token]) -> Result<(bool, &[Token]), PartStop>
    ensures value { Gives (λ x. x.0) (λ x. x.1.now) result (kind (by_key key_pick) tokens.now) }
    ensures shorter { IfOk result (λ x. length x.1.now < length tokens.now) }
{
    let (key, rest) = key_at(tokens)?;
    known(pick_of(key), tokens, rest)
}

/// Returns true for `\cap` and `\cup`.
fn is_pick(kind: &TokenKind) -> bool
    ensures { result ≡ is_pick kind.now }
{
    match kind {
        TokenKind::Key(key) => pick_of(*key).is_some(),
        TokenKind::Word(_) => false,
        TokenKind::Number(_) => false,
        TokenKind::Mark(_) => false,
    }
}

/// Returns true if the first token is `\cap` or `\cup`.
pub(crate) fn starts_pick(tokens: &[Token]) -> bool
    ensures { result ≡ starts is_pick tokens.now }
{
    match tokens.split_first() {
        None => false,
        Some((token, _)) => is_pick(&token.kind),
    }
}

/// Reads `=` and a right side.
fn given(alloc: Global, tokens: &[Token]) -> Result<(Right, &[Token]), PartStop>
    ensures value { (n : ℕ) → length tokens.now < n
        → Gives (λ x. right_side x.0) (λ x. x.1.now) result (given n tokens.now) }
    ensures shorter { IfOk result (λ x. length x.1.now < length tokens.now) }
{
    let (_, rest) = expect(Mark::Assign, tokens)?;
    right(alloc, rest)
}

/// Reads `=` and a right side, if the first token is `=`.
fn value(alloc: Global, tokens: &[Token]) -> Result<(Option<Right>, &[Token]), PartStop>
    ensures value { (n : ℕ) → length tokens.now < n
        → Gives (λ x. optional_right x.0) (λ x. x.1.now) result
        (optional (is_mark marks.Assign) (given n) tokens.now) }
    ensures shorter { IfOk result (λ x. length x.1.now ≤ length tokens.now) }
{
    if starts_mark(Mark::Assign, tokens) {
        let (value, rest) = given(alloc, tokens)?;
        return Ok((Some(value), rest));
    }
    Ok((None, tokens))
}

/// Appends a `var` statement to `found`.
#[inline(never)]
pub(crate) fn var<'a>(
    alloc: Global,
    found: &mut Vec<Stmt>,
    tokens: &'a [Token],
) -> Result<&'a [Token], PartStop>
    ensures value { (n : ℕ) → length tokens.now < n
        → Gives (λ _. map statement found.new.items) (λ rest. rest.now) result
        (added (map statement found.old.items) (spanned var_tree (declared n) tokens.now)) }
    ensures shorter { IfOk result (λ rest. length rest.now < length tokens.now) }
{
    found.reserve(1)?;
    let (_, rest) = expect_key(Key::Var, tokens)?;
    let (typed, rest) = typed_name(alloc, rest)?;
    let (given, rest) = value(alloc, rest)?;
    found.push_reserved(Stmt::Var(typed.0, typed.1, given, span_between(tokens, rest)));
    Ok(rest)
}

/// Appends a call without targets to `found`.
#[inline(never)]
fn call_alone<'a>(
    alloc: Global,
    found: &mut Vec<Stmt>,
    tokens: &'a [Token],
) -> Result<&'a [Token], PartStop>
    ensures value { (n : ℕ) → length tokens.now < n
        → Gives (λ _. map statement found.new.items) (λ rest. rest.now) result
        (added (map statement found.old.items)
        (spanned assign_tree (mapped alone (call n)) tokens.now)) }
    ensures shorter { IfOk result (λ rest. length rest.now < length tokens.now) }
{
    found.reserve(1)?;
    let (made, rest) = call(alloc, tokens)?;
    let right = Right::Call(made.0, made.1);
    found.push_reserved(Stmt::Assign(Vec::new(alloc), right, span_between(tokens, rest)));
    Ok(rest)
}

/// Appends an assignment to `targets`, which are at the beginning of `tokens`, to `found`. Its
/// right side is at the beginning of `side`. Returns the tokens after it.
#[inline(never)]
fn assign_right<'a>(
    alloc: Global,
    found: &mut Vec<Stmt>,
    targets: Vec<Name>,
    tokens: &[Token],
    side: &'a [Token],
) -> Result<&'a [Token], PartStop>
    ensures value { (n : ℕ) → length side.now < n
        → Gives (λ _. map statement found.new.items) (λ rest. rest.now) result
        (added (map statement found.old.items)
        (valued targets.items tokens.now (right n side.now))) }
    ensures shorter { IfOk result (λ rest. length rest.now < length side.now) }
{
    found.reserve(1)?;
    let (value, rest) = right(alloc, side)?;
    let place = span_between(tokens, rest);
    found.push_reserved(Stmt::Assign(targets, value, place));
    Ok(rest)
}

/// Appends an assignment or a call to `found`.
#[inline(never)]
pub(crate) fn assign<'a>(
    alloc: Global,
    found: &mut Vec<Stmt>,
    tokens: &'a [Token],
) -> Result<&'a [Token], PartStop>
    ensures value { (n : ℕ) → length tokens.now < n
        → Gives (λ _. map statement found.new.items) (λ rest. rest.now) result
        (added (map statement found.old.items) (spanned assign_tree (assigned n) tokens.now)) }
    ensures shorter { IfOk result (λ rest. length rest.now < length tokens.now) }
{
    if is_call(tokens) {
        return call_alone(alloc, found, tokens);
    }
    found.reserve(1)?;
    let (targets, rest) = names(alloc, tokens)?;
    let (_, side) = expect(Mark::Assign, rest)?;
    if is_alone(side) {
        let (value, rest) = leaf(alloc, side)?;
        let place = span_between(tokens, rest);
        found.push_reserved(Stmt::Assign(targets, Right::Plain(value), place));
        return Ok(rest);
    }
    assign_right(alloc, found, targets, tokens, side)
}

/// Appends an `assert`, `assume`, `coassert` or `coassume` to `found`.
#[inline(never)]
pub(crate) fn check<'a>(
    alloc: Global,
    found: &mut Vec<Stmt>,
    tokens: &'a [Token],
) -> Result<&'a [Token], PartStop>
    ensures value { (n : ℕ) → length tokens.now < n
        → Gives (λ _. map statement found.new.items) (λ rest. rest.now) result
        (added (map statement found.old.items) (spanned check_tree (checked n) tokens.now)) }
    ensures shorter { IfOk result (λ rest. length rest.now < length tokens.now) }
{
    found.reserve(1)?;
    let (kind, rest) = check_word(tokens)?;
    let (claim, rest) = whole(alloc, rest)?;
    found.push_reserved(Stmt::Check(kind, claim, span_between(tokens, rest)));
    Ok(rest)
}

/// Appends a `validate` or `covalidate` to `found`.
#[inline(never)]
pub(crate) fn validate<'a>(
    found: &mut Vec<Stmt>,
    tokens: &'a [Token],
) -> Result<&'a [Token], PartStop>
    ensures value { Gives (λ _. map statement found.new.items) (λ rest. rest.now) result
        (added (map statement found.old.items)
        (spanned Statement.validate (kind (by_key key_validate)) tokens.now)) }
    ensures shorter { IfOk result (λ rest. length rest.now < length tokens.now) }
{
    found.reserve(1)?;
    let (co, rest) = validate_word(tokens)?;
    found.push_reserved(Stmt::Validate(co, span_between(tokens, rest)));
    Ok(rest)
}

/// Appends a `havoc` or `cohavoc` to `found`.
#[inline(never)]
pub(crate) fn havoc<'a>(
    alloc: Global,
    found: &mut Vec<Stmt>,
    tokens: &'a [Token],
) -> Result<&'a [Token], PartStop>
    ensures value { (n : ℕ) → length tokens.now < n
        → Gives (λ _. map statement found.new.items) (λ rest. rest.now) result
        (added (map statement found.old.items) (spanned havoc_tree (havocked n) tokens.now)) }
    ensures shorter { IfOk result (λ rest. length rest.now < length tokens.now) }
{
    found.reserve(1)?;
    let (co, rest) = havoc_word(tokens)?;
    let (targets, rest) = names(alloc, rest)?;
    found.push_reserved(Stmt::Havoc(co, targets, span_between(tokens, rest)));
    Ok(rest)
}

/// Appends a `reward` to `found`, which `tick` begins too.
#[inline(never)]
pub(crate) fn reward<'a>(
    alloc: Global,
    found: &mut Vec<Stmt>,
    tokens: &'a [Token],
) -> Result<&'a [Token], PartStop>
    ensures value { (n : ℕ) → length tokens.now < n
        → Gives (λ _. map statement found.new.items) (λ rest. rest.now) result
        (added (map statement found.old.items) (spanned Statement.reward (rewarded n) tokens.now)) }
    ensures shorter { IfOk result (λ rest. length rest.now < length tokens.now) }
{
    found.reserve(1)?;
    let (_, rest) = reward_word(tokens)?;
    let (amount, rest) = whole(alloc, rest)?;
    found.push_reserved(Stmt::Reward(amount, span_between(tokens, rest)));
    Ok(rest)
}
