//! The parser of procedures.

ghost use Rattle.heyvl_parse.specs.internal.Statements.{braced, stmts};
ghost use Rattle.heyvl_parse.specs.readers.Combinators.{kind, lead, list, list0, optional, starts};
ghost use Rattle.heyvl_parse.specs.internal.Procedures.{clause_of, divided, is_clause, key_clause};
ghost use Rattle.heyvl_parse.specs.internal.Procedures.{key_proc, note, note_of, opening, param};
ghost use Rattle.heyvl_parse.specs.internal.Procedures.{params, proc_of, procedure, promise};
ghost use Rattle.heyvl_parse.specs.internal.Procedures.{signature, word_note};
ghost use Rattle.heyvl_parse.specs.readers.ReadParts.{expr, is_mark, pair};
ghost use Rattle.heyvl_parse.specs.readers.Results.{Gives};
ghost use Rattle.heyvl_syntax.specs.Expressions.{expression, expressions};
ghost use Rattle.heyvl_syntax.specs.Procedures.{optional_block, procedure as tree_of};
ghost use Rattle.heyvl_syntax.specs.declared.marks.Mark.TheVariants as marks;
ghost use Rattle.std.specs.Prelude.{IfOk, length, ◌<◌, ◌≡◌, ◌≤◌, ℕ};

use crate::expressions::whole;
use crate::places::span_between;
use crate::sequels::{beside, closed};
use crate::statements::block;
use crate::stops::PartStop;
use crate::tokens::{expect, known, next, starts_mark, word};
use crate::typed_names::typed_name;
use heyvl_places::Name;
use heyvl_syntax::{Expr, Key, Mark, Note, Param, Proc, Stmt, Token, TokenKind};
use std::alloc::Global;

/// Returns the note that an identifier names, if it names one.
fn word_note(name: &Name) -> Option<Note>
    ensures { result ≡ word_note name.now }
{
    let bytes = name.as_bytes();
    if bytes == b"wlp".as_slice() {
        Some(Note::Wlp)
    } else if bytes == b"wp".as_slice() {
        Some(Note::Wp)
    } else if bytes == b"ert".as_slice() {
        Some(Note::Ert)
    } else {
        None
    }
}

fn note_of(kind: &TokenKind) -> Option<Note>
    ensures { result ≡ note_of kind.now }
{
    match kind {
        TokenKind::Word(name) => word_note(name),
        TokenKind::Key(_) => None,
        TokenKind::Number(_) => None,
        TokenKind::Mark(_) => None,
    }
}

/// Reads the name of a note.
fn note_word(tokens: &[Token]) -> Result<(Note, &[Token]), PartStop>
    ensures value { Gives (λ x. x.0) (λ x. x.1.now) result (kind note_of tokens.now) }
    ensures shorter { IfOk result (λ x. length x.1.now < length tokens.now) }
{
    let (token, rest) = next(tokens)?;
    known(note_of(&token.kind), tokens, rest)
}

/// Reads a note, if the first token is `@`.
fn note(tokens: &[Token]) -> Result<(Option<Note>, &[Token]), PartStop>
    ensures value { Gives (λ x. x.0) (λ x. x.1.now) result
        (optional (is_mark marks.AtSign) note tokens.now) }
    ensures shorter { IfOk result (λ x. length x.1.now ≤ length tokens.now) }
{
    if !starts_mark(Mark::AtSign, tokens) {
        return Ok((None, tokens));
    }
    let (_, rest) = expect(Mark::AtSign, tokens)?;
    let (note, rest) = note_word(rest)?;
    Ok((Some(note), rest))
}

fn key_proc(key: Key) -> Option<bool>
    ensures { result ≡ key_proc key }
{
    match key {
        Key::Proc => Some(false),
        Key::CoProc => Some(true),
        _ => None,
    }
}

/// Returns true for `coproc`, false for `proc`, and nothing for any other token.
pub(crate) fn proc_of(kind: &TokenKind) -> Option<bool>
    ensures { result ≡ proc_of kind.now }
{
    match kind {
        TokenKind::Key(key) => key_proc(*key),
        TokenKind::Word(_) => None,
        TokenKind::Number(_) => None,
        TokenKind::Mark(_) => None,
    }
}

/// Reads `proc` or `coproc`, and returns true for `coproc`.
fn proc_key(tokens: &[Token]) -> Result<(bool, &[Token]), PartStop>
    ensures value { Gives (λ x. x.0) (λ x. x.1.now) result (kind proc_of tokens.now) }
    ensures shorter { IfOk result (λ x. length x.1.now < length tokens.now) }
{
    let (token, rest) = next(tokens)?;
    known(proc_of(&token.kind), tokens, rest)
}

/// Reads the note of a procedure and `proc` or `coproc`; the Boolean is true for `coproc`.
fn opening(tokens: &[Token]) -> Result<((Option<Note>, bool), &[Token]), PartStop>
    ensures value { Gives (λ x. x.0) (λ x. x.1.now) result (opening tokens.now) }
    ensures shorter { IfOk result (λ x. length x.1.now < length tokens.now) }
{
    let (note, rest) = note(tokens)?;
    beside(note, proc_key(rest))
}

/// Reads an input or an output.
fn param(alloc: Global, tokens: &[Token]) -> Result<(Param, &[Token]), PartStop>
    ensures value { Gives (λ x. x.0) (λ x. x.1.now) result (param tokens.now) }
    ensures shorter { IfOk result (λ x. length x.1.now < length tokens.now) }
{
    let (typed, rest) = typed_name(alloc, tokens)?;
    let found = Param {
        name: typed.0,
        ty: typed.1,
        span: span_between(tokens, rest),
    };
    Ok((found, rest))
}

/// Reads a `,` and a parameter.
fn further_param(alloc: Global, tokens: &[Token]) -> Result<(Param, &[Token]), PartStop>
    ensures value { Gives (λ x. x.0) (λ x. x.1.now) result
        (lead (is_mark marks.Comma) param tokens.now) }
    ensures shorter { IfOk result (λ x. length x.1.now < length tokens.now) }
{
    let (_, rest) = expect(Mark::Comma, tokens)?;
    param(alloc, rest)
}

/// Reads one or more parameters with `,` between them.
fn some_params(alloc: Global, tokens: &[Token]) -> Result<(Vec<Param>, &[Token]), PartStop>
    ensures value { (n : ℕ) → length tokens.now < n
        → Gives (λ x. x.0.items) (λ x. x.1.now) result (list param n tokens.now) }
    ensures shorter { IfOk result (λ x. length x.1.now < length tokens.now) }
{
    let (first, mut rest) = param(alloc, tokens)?;
    let mut found = Vec::new(alloc);
    found.push(first)?;
    'items: while starts_mark(Mark::Comma, rest) {
        let (one, behind) = further_param(alloc, rest)?;
        found.push(one)?;
        rest = behind;
    }
    Ok((found, rest))
}

/// Reads parameters with `,` between them, or none before `)`.
fn params_inside(alloc: Global, tokens: &[Token]) -> Result<(Vec<Param>, &[Token]), PartStop>
    ensures value { (n : ℕ) → length tokens.now < n
        → Gives (λ x. x.0.items) (λ x. x.1.now) result (list0 param n tokens.now) }
    ensures shorter { IfOk result (λ x. length x.1.now ≤ length tokens.now) }
{
    if starts_mark(Mark::ParenRight, tokens) {
        return Ok((Vec::new(alloc), tokens));
    }
    some_params(alloc, tokens)
}

/// Reads parameters with their parentheses.
fn params(alloc: Global, tokens: &[Token]) -> Result<(Vec<Param>, &[Token]), PartStop>
    ensures value { (n : ℕ) → length tokens.now < n
        → Gives (λ x. x.0.items) (λ x. x.1.now) result (params n tokens.now) }
    ensures shorter { IfOk result (λ x. length x.1.now < length tokens.now) }
{
    let (_, rest) = expect(Mark::ParenLeft, tokens)?;
    let (found, rest) = params_inside(alloc, rest)?;
    closed(found, Mark::ParenRight, rest)
}

/// Reads the inputs and the outputs of a procedure.
fn ends(alloc: Global, tokens: &[Token]) -> Result<((Vec<Param>, Vec<Param>), &[Token]), PartStop>
    ensures value { (n : ℕ) → length tokens.now < n
        → Gives (λ x. (x.0.0.items, x.0.1.items)) (λ x. x.1.now) result
        (pair (params n) (lead (is_mark marks.Arrow) (params n)) tokens.now) }
    ensures shorter { IfOk result (λ x. length x.1.now < length tokens.now) }
{
    let (inputs, rest) = params(alloc, tokens)?;
    let (_, rest) = expect(Mark::Arrow, rest)?;
    beside(inputs, params(alloc, rest))
}

/// Reads the name of a procedure, its inputs and its outputs.
fn signature(
    alloc: Global,
    tokens: &[Token],
) -> Result<((Name, (Vec<Param>, Vec<Param>)), &[Token]), PartStop>
    ensures value { (n : ℕ) → length tokens.now < n
        → Gives (λ x. (x.0.0, (x.0.1.0.items, x.0.1.1.items))) (λ x. x.1.now) result
        (signature n tokens.now) }
    ensures shorter { IfOk result (λ x. length x.1.now < length tokens.now) }
{
    let (name, rest) = word(alloc, tokens)?;
    beside(name, ends(alloc, rest))
}

fn key_clause(key: Key) -> Option<bool>
    ensures { result ≡ key_clause key }
{
    match key {
        Key::Pre => Some(false),
        Key::Post => Some(true),
        _ => None,
    }
}

/// Returns true for `post`, false for `pre`, and nothing for any other token.
fn clause_of(kind: &TokenKind) -> Option<bool>
    ensures { result ≡ clause_of kind.now }
{
    match kind {
        TokenKind::Key(key) => key_clause(*key),
        TokenKind::Word(_) => None,
        TokenKind::Number(_) => None,
        TokenKind::Mark(_) => None,
    }
}

/// Reads `pre` or `post`, and returns true for `post`.
fn clause_key(tokens: &[Token]) -> Result<(bool, &[Token]), PartStop>
    ensures value { Gives (λ x. x.0) (λ x. x.1.now) result (kind clause_of tokens.now) }
    ensures shorter { IfOk result (λ x. length x.1.now < length tokens.now) }
{
    let (token, rest) = next(tokens)?;
    known(clause_of(&token.kind), tokens, rest)
}

/// Returns true if the first token is `pre` or `post`.
fn starts_clause(tokens: &[Token]) -> bool
    ensures { result ≡ starts is_clause tokens.now }
{
    match tokens.split_first() {
        None => false,
        Some((token, _)) => clause_of(&token.kind).is_some(),
    }
}

/// Reads a clause; the Boolean is true for a post clause.
fn clause(alloc: Global, tokens: &[Token]) -> Result<((bool, Expr), &[Token]), PartStop>
    ensures value { (n : ℕ) → length tokens.now < n
        → Gives (λ x. (x.0.0, expression x.0.1)) (λ x. x.1.now) result
        (pair (kind clause_of) (expr n) tokens.now) }
    ensures shorter { IfOk result (λ x. length x.1.now < length tokens.now) }
{
    let (post, rest) = clause_key(tokens)?;
    beside(post, whole(alloc, rest))
}

/// Reads clauses, and returns the pre clauses and the post clauses.
fn clauses(alloc: Global, tokens: &[Token]) -> Result<((Vec<Expr>, Vec<Expr>), &[Token]), PartStop>
    ensures value { (n : ℕ) → length tokens.now < n
        → Gives (λ x. (expressions x.0.0.items, expressions x.0.1.items)) (λ x. x.1.now) result
        (divided n tokens.now) }
    ensures shorter { IfOk result (λ x. length x.1.now ≤ length tokens.now) }
{
    let mut pres = Vec::new(alloc);
    let mut posts = Vec::new(alloc);
    let mut rest = tokens;
    'items: while starts_clause(rest) {
        let (one, behind) = clause(alloc, rest)?;
        if one.0 {
            posts.push(one.1)?;
        } else {
            pres.push(one.1)?;
        }
        rest = behind;
    }
    Ok(((pres, posts), rest))
}

/// Reads a body, if the first token is `{`.
fn body(alloc: Global, tokens: &[Token]) -> Result<(Option<Vec<Stmt>>, &[Token]), PartStop>
    ensures value { (n : ℕ) → length tokens.now < n
        → Gives (λ x. optional_block x.0) (λ x. x.1.now) result
        (optional (is_mark marks.BraceLeft) (braced (stmts n)) tokens.now) }
    ensures shorter { IfOk result (λ x. length x.1.now ≤ length tokens.now) }
{
    if !starts_mark(Mark::BraceLeft, tokens) {
        return Ok((None, tokens));
    }
    let (found, rest) = block(alloc, tokens)?;
    Ok((Some(found), rest))
}

/// Reads the clauses and the body of a procedure.
fn promise(
    alloc: Global,
    tokens: &[Token],
) -> Result<(((Vec<Expr>, Vec<Expr>), Option<Vec<Stmt>>), &[Token]), PartStop>
    ensures value { (n : ℕ) → length tokens.now < n
        → Gives (λ x.
        ((expressions x.0.0.0.items, expressions x.0.0.1.items), optional_block x.0.1))
        (λ x. x.1.now) result (promise (braced (stmts n)) n tokens.now) }
    ensures shorter { IfOk result (λ x. length x.1.now ≤ length tokens.now) }
{
    let (found, rest) = clauses(alloc, tokens)?;
    beside(found, body(alloc, rest))
}

/// Reads a procedure.
pub(crate) fn procedure(alloc: Global, tokens: &[Token]) -> Result<(Proc, &[Token]), PartStop>
    ensures value { (n : ℕ) → length tokens.now < n
        → Gives (λ x. tree_of x.0) (λ x. x.1.now) result
        (procedure (braced (stmts n)) n tokens.now) }
    ensures shorter { IfOk result (λ x. length x.1.now < length tokens.now) }
{
    let (front, rest) = opening(tokens)?;
    let (signed, rest) = signature(alloc, rest)?;
    let (promised, rest) = promise(alloc, rest)?;
    let found = Proc {
        co: front.1,
        note: front.0,
        name: signed.0,
        inputs: signed.1.0,
        outputs: signed.1.1,
        pres: promised.0.0,
        posts: promised.0.1,
        body: promised.1,
        span: span_between(tokens, rest),
    };
    Ok((found, rest))
}
