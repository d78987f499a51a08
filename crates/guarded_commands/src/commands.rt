//! The parser of commands and blocks. As in `heyvl_parse`, a reader returns what it has read and
//! the tokens after it.

ghost use Rattle.heyvl_parse.specs.readers.Combinators.{spanned, starts};
ghost use Rattle.heyvl_parse.specs.readers.ReadParts.{is_mark};
ghost use Rattle.heyvl_parse.specs.readers.Results.{Gives};
ghost use Rattle.heyvl_syntax.specs.Expressions.{expression};
ghost use Rattle.heyvl_syntax.specs.declared.marks.Mark.TheVariants as marks;
ghost use Rattle.guarded_commands.specs.Programs.{CommandTree, block_tree, command_tree};
ghost use Rattle.guarded_commands.specs.internal.Commands.{braced, bracketed, branch_tree};
ghost use Rattle.guarded_commands.specs.internal.Commands.{branched, command, commands, enclosed};
ghost use Rattle.guarded_commands.specs.internal.Commands.{ended_expr, fork_tree, forked, given};
ghost use Rattle.guarded_commands.specs.internal.Commands.{is_opening, is_skip, key_opening};
ghost use Rattle.guarded_commands.specs.internal.Commands.{kind_opening, mark_opening, named};
ghost use Rattle.guarded_commands.specs.internal.Commands.{named_tree, opening, opens, repeat_tree};
ghost use Rattle.guarded_commands.specs.internal.Commands.{repeated, ticked};
ghost use Rattle.std.specs.Prelude.{IfOk, length, suc, ◌&&◌, ◌<◌, ◌≡◌, ◌≤◌, ℕ};

use crate::programs::Command;
use heyvl_parse::{PartStop, expect, expect_key, span_between, starts_mark, whole, word};
use heyvl_places::Name;
use heyvl_syntax::{Expr, Key, Mark, Token, TokenKind};
use std::alloc::Global;

/// The kind of command that a token begins.
#[derive(Clone, Copy)]
pub(crate) enum Opening {
    /// `skip`, or an assignment.
    Word,
    Tick,
    If,
    /// A choice of two blocks.
    Block,
    While,
    /// No command.
    Other,
}

fn key_opening(key: Key) -> Opening
    ensures { result ≡ key_opening key }
{
    match key {
        Key::Tick => Opening::Tick,
        Key::If => Opening::If,
        Key::While => Opening::While,
        _ => Opening::Other,
    }
}

fn mark_opening(mark: Mark) -> Opening
    ensures { result ≡ mark_opening mark }
{
    match mark {
        Mark::BraceLeft => Opening::Block,
        _ => Opening::Other,
    }
}

fn kind_opening(kind: &TokenKind) -> Opening
    ensures { result ≡ kind_opening kind.now }
{
    match kind {
        TokenKind::Word(_) => Opening::Word,
        TokenKind::Key(key) => key_opening(*key),
        TokenKind::Mark(mark) => mark_opening(*mark),
        TokenKind::Number(_) => Opening::Other,
    }
}

fn opening_at(tokens: &[Token]) -> Opening
    ensures { result ≡ opening tokens.now }
{
    match tokens.split_first() {
        None => Opening::Other,
        Some((token, _)) => kind_opening(&token.kind),
    }
}

fn opens(opening: Opening) -> bool
    ensures { result ≡ opens opening }
{
    match opening {
        Opening::Word => true,
        Opening::Tick => true,
        Opening::If => true,
        Opening::Block => true,
        Opening::While => true,
        Opening::Other => false,
    }
}

/// Returns true if a command begins with the first token.
fn starts_command(tokens: &[Token]) -> bool
    ensures { result ≡ starts is_opening tokens.now }
{
    match tokens.split_first() {
        None => false,
        Some((token, _)) => opens(kind_opening(&token.kind)),
    }
}

/// Reads an expression and `;`.
pub(crate) fn ended_expr(alloc: Global, tokens: &[Token]) -> Result<(Expr, &[Token]), PartStop>
    ensures value { (n : ℕ) → length tokens.now < n
        → Gives (λ x. expression x.0) (λ x. x.1.now) result (ended_expr n tokens.now) }
    ensures shorter { IfOk result (λ x. length x.1.now < length tokens.now) }
{
    let (found, rest) = whole(alloc, tokens)?;
    let (_, rest) = expect(Mark::Semi, rest)?;
    Ok((found, rest))
}

/// Reads an expression in parentheses.
fn enclosed(alloc: Global, tokens: &[Token]) -> Result<(Expr, &[Token]), PartStop>
    ensures value { (n : ℕ) → length tokens.now < n
        → Gives (λ x. expression x.0) (λ x. x.1.now) result (enclosed n tokens.now) }
    ensures shorter { IfOk result (λ x. length x.1.now < length tokens.now) }
{
    let (_, rest) = expect(Mark::ParenLeft, tokens)?;
    let (found, rest) = whole(alloc, rest)?;
    let (_, rest) = expect(Mark::ParenRight, rest)?;
    Ok((found, rest))
}

/// Reads `:=`, an expression and `;`.
fn given(alloc: Global, tokens: &[Token]) -> Result<(Expr, &[Token]), PartStop>
    ensures value { (n : ℕ) → length tokens.now < n
        → Gives (λ x. expression x.0) (λ x. x.1.now) result (given n tokens.now) }
    ensures shorter { IfOk result (λ x. length x.1.now < length tokens.now) }
{
    let (_, rest) = expect(Mark::Colon, tokens)?;
    let (_, rest) = expect(Mark::Assign, rest)?;
    ended_expr(alloc, rest)
}

fn is_skip(word: &[u8]) -> bool
    ensures { result ≡ is_skip word.now }
{
    word == b"skip".as_slice()
}

/// Returns true if `word` and the tokens after it begin with `skip;`.
fn skips(word: &Name, rest: &[Token]) -> bool
    ensures { result ≡ (is_skip word.now && starts (is_mark marks.Semi) rest.now) }
{
    is_skip(word.as_bytes()) && starts_mark(Mark::Semi, rest)
}

/// Reads a command that begins with an identifier: `skip`, or an assignment.
#[inline(never)]
fn named(alloc: Global, tokens: &[Token]) -> Result<(Command, &[Token]), PartStop>
    ensures value { (n : ℕ) → length tokens.now < n
        → Gives (λ x. command_tree x.0) (λ x. x.1.now) result
        (spanned named_tree (named n) tokens.now) }
    ensures shorter { IfOk result (λ x. length x.1.now < length tokens.now) }
{
    let (name, rest) = word(alloc, tokens)?;
    if skips(&name, rest) {
        let (_, rest) = expect(Mark::Semi, rest)?;
        return Ok((Command::Skip(span_between(tokens, rest)), rest));
    }
    let (value, rest) = given(alloc, rest)?;
    Ok((
        Command::Assign(name, value, span_between(tokens, rest)),
        rest,
    ))
}

/// Reads a `tick`.
#[inline(never)]
fn ticked(alloc: Global, tokens: &[Token]) -> Result<(Command, &[Token]), PartStop>
    ensures value { (n : ℕ) → length tokens.now < n
        → Gives (λ x. command_tree x.0) (λ x. x.1.now) result
        (spanned CommandTree.tick (ticked n) tokens.now) }
    ensures shorter { IfOk result (λ x. length x.1.now < length tokens.now) }
{
    let (_, rest) = expect_key(Key::Tick, tokens)?;
    let (amount, rest) = enclosed(alloc, rest)?;
    let (_, rest) = expect(Mark::Semi, rest)?;
    Ok((Command::Tick(amount, span_between(tokens, rest)), rest))
}

/// Reads the commands of a block with its braces.
#[cycle(commands)]
#[inline(always)]
fn block(alloc: Global, tokens: &[Token]) -> Result<(Vec<Command>, &[Token]), PartStop>
    ensures value { (n : ℕ) → length tokens.now ≤ n
        → Gives (λ x. block_tree x.0.items) (λ x. x.1.now) result (braced (commands n) tokens.now) }
    ensures shorter { IfOk result (λ x. length x.1.now < length tokens.now) }
{
    let (_, rest) = expect(Mark::BraceLeft, tokens)?;
    let (inner, rest) = commands(alloc, rest)?;
    let (_, rest) = expect(Mark::BraceRight, rest)?;
    Ok((inner, rest))
}

/// Reads commands as long as one begins.
#[cycle(commands)]
#[inline(never)]
pub(crate) fn commands(
    alloc: Global,
    tokens: &[Token],
) -> Result<(Vec<Command>, &[Token]), PartStop>
    ensures value { (n : ℕ) → length tokens.now < n
        → Gives (λ x. block_tree x.0.items) (λ x. x.1.now) result (commands n tokens.now) }
    ensures shorter { IfOk result (λ x. length x.1.now ≤ length tokens.now) }
{
    let mut found = Vec::new(alloc);
    let mut rest = tokens;
    'items: while starts_command(rest) {
        let (one, behind) = command(alloc, rest)?;
        found.push(one)?;
        rest = behind;
    }
    Ok((found, rest))
}

/// Reads a command.
#[cycle(commands)]
#[inline(always)]
fn command(alloc: Global, tokens: &[Token]) -> Result<(Command, &[Token]), PartStop>
    ensures value { (n : ℕ) → length tokens.now ≤ n
        → Gives (λ x. command_tree x.0) (λ x. x.1.now) result
        (command (suc n) (braced (commands n)) tokens.now) }
    ensures shorter { IfOk result (λ x. length x.1.now < length tokens.now) }
{
    match opening_at(tokens) {
        Opening::Word => named(alloc, tokens),
        Opening::Tick => ticked(alloc, tokens),
        Opening::If => branched(alloc, tokens),
        Opening::Block => forked(alloc, tokens),
        Opening::While => repeated(alloc, tokens),
        Opening::Other => Err(PartStop::Fault(tokens.len())),
    }
}

/// Reads an `if`.
#[cycle(commands)]
#[inline(never)]
fn branched(alloc: Global, tokens: &[Token]) -> Result<(Command, &[Token]), PartStop>
    ensures value { (n : ℕ) → length tokens.now ≤ n
        → Gives (λ x. command_tree x.0) (λ x. x.1.now) result
        (spanned branch_tree (branched (suc n) (braced (commands n))) tokens.now) }
    ensures shorter { IfOk result (λ x. length x.1.now < length tokens.now) }
{
    let (_, rest) = expect_key(Key::If, tokens)?;
    let (guard, rest) = enclosed(alloc, rest)?;
    let (left, rest) = block(alloc, rest)?;
    let (_, rest) = expect_key(Key::Else, rest)?;
    let (right, rest) = block(alloc, rest)?;
    Ok((
        Command::If(guard, left, right, span_between(tokens, rest)),
        rest,
    ))
}

/// Reads an expression, `]` and a block.
#[cycle(commands)]
#[inline(always)]
fn bracketed(alloc: Global, tokens: &[Token]) -> Result<((Expr, Vec<Command>), &[Token]), PartStop>
    ensures value { (n : ℕ) → length tokens.now ≤ n
        → Gives (λ x. (expression x.0.0, block_tree x.0.1.items)) (λ x. x.1.now) result
        (bracketed (suc n) (braced (commands n)) tokens.now) }
    ensures shorter { IfOk result (λ x. length x.1.now < length tokens.now) }
{
    let (found, rest) = whole(alloc, tokens)?;
    let (_, rest) = expect(Mark::BracketRight, rest)?;
    let (body, rest) = block(alloc, rest)?;
    Ok(((found, body), rest))
}

/// Reads a choice of two blocks.
#[cycle(commands)]
#[inline(never)]
fn forked(alloc: Global, tokens: &[Token]) -> Result<(Command, &[Token]), PartStop>
    ensures value { (n : ℕ) → length tokens.now ≤ n
        → Gives (λ x. command_tree x.0) (λ x. x.1.now) result
        (spanned fork_tree (forked (suc n) (braced (commands n))) tokens.now) }
    ensures shorter { IfOk result (λ x. length x.1.now < length tokens.now) }
{
    let (left, rest) = block(alloc, tokens)?;
    let (_, rest) = expect(Mark::BracketLeft, rest)?;
    if starts_mark(Mark::BracketRight, rest) {
        let (_, rest) = expect(Mark::BracketRight, rest)?;
        let (right, rest) = block(alloc, rest)?;
        return Ok((
            Command::Choice(left, right, span_between(tokens, rest)),
            rest,
        ));
    }
    let (parts, rest) = bracketed(alloc, rest)?;
    Ok((
        Command::Mix(parts.0, left, parts.1, span_between(tokens, rest)),
        rest,
    ))
}

/// Reads a `while`.
#[cycle(commands)]
#[inline(never)]
fn repeated(alloc: Global, tokens: &[Token]) -> Result<(Command, &[Token]), PartStop>
    ensures value { (n : ℕ) → length tokens.now ≤ n
        → Gives (λ x. command_tree x.0) (λ x. x.1.now) result
        (spanned repeat_tree (repeated (suc n) (braced (commands n))) tokens.now) }
    ensures shorter { IfOk result (λ x. length x.1.now < length tokens.now) }
{
    let (_, rest) = expect_key(Key::While, tokens)?;
    let (guard, rest) = enclosed(alloc, rest)?;
    let (_, rest) = expect(Mark::BracketLeft, rest)?;
    let (parts, rest) = bracketed(alloc, rest)?;
    Ok((
        Command::While(guard, parts.0, parts.1, span_between(tokens, rest)),
        rest,
    ))
}
