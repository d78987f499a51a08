//! The parser of lists of expressions and of names.

ghost use Rattle.heyvl_parse.specs.readers.Combinators.{lead, list, list0};
ghost use Rattle.heyvl_parse.specs.readers.ReadParts.{expr, is_mark, word};
ghost use Rattle.heyvl_parse.specs.readers.Results.{Gives};
ghost use Rattle.heyvl_parse.specs.internal.Rights.{arguments};
ghost use Rattle.heyvl_syntax.specs.Expressions.{expression, expressions};
ghost use Rattle.heyvl_syntax.specs.declared.marks.Mark.TheVariants as marks;
ghost use Rattle.std.specs.Prelude.{[], IfOk, OnOk, length, ◌++◌, ◌<◌, ◌∷◌, ◌≡◌, ◌≤◌, ℕ};

use crate::expressions::whole;
use crate::sequels::closed;
use crate::stops::PartStop;
use crate::tokens::{expect, starts_mark, word};
use heyvl_places::Name;
use heyvl_syntax::{Expr, Mark, Token};
use std::alloc::{AllocError, Global};

/// Appends `item` to `items`. It is a separate function, so that recursive readers have no room for
/// the item on their stack.
#[inline(never)]
pub(crate) fn put<T: Drop>(items: &mut Vec<T>, item: T) -> Result<(), AllocError>
    ensures { OnOk result (items.new.items ≡ items.old.items ++ (item ∷ [])) }
{
    Ok(items.push(item)?)
}

/// Returns a list of `item` alone.
pub(crate) fn single<T: Drop>(alloc: Global, item: T) -> Result<Vec<T>, AllocError>
    ensures { IfOk result (λ items. items.items ≡ item ∷ []) }
{
    let mut items = Vec::with_capacity(alloc, 1)?;
    items.push_reserved(item);
    Ok(items)
}

/// Reads a `,` and an expression.
fn further(alloc: Global, tokens: &[Token]) -> Result<(Expr, &[Token]), PartStop>
    ensures value { (n : ℕ) → length tokens.now < n
        → Gives (λ x. expression x.0) (λ x. x.1.now) result
        (lead (is_mark marks.Comma) (expr n) tokens.now) }
    ensures shorter { IfOk result (λ x. length x.1.now < length tokens.now) }
{
    let (_, rest) = expect(Mark::Comma, tokens)?;
    whole(alloc, rest)
}

/// Reads one or more expressions with `,` between them.
fn expressions(alloc: Global, tokens: &[Token]) -> Result<(Vec<Expr>, &[Token]), PartStop>
    ensures value { (n : ℕ) → length tokens.now < n
        → Gives (λ x. expressions x.0.items) (λ x. x.1.now) result (list (expr n) n tokens.now) }
    ensures shorter { IfOk result (λ x. length x.1.now < length tokens.now) }
{
    let (first, mut rest) = whole(alloc, tokens)?;
    let mut found = Vec::new(alloc);
    found.push(first)?;
    'items: while starts_mark(Mark::Comma, rest) {
        let (one, behind) = further(alloc, rest)?;
        found.push(one)?;
        rest = behind;
    }
    Ok((found, rest))
}

/// Reads expressions with `,` between them, or none before `)`.
fn expressions_inside(alloc: Global, tokens: &[Token]) -> Result<(Vec<Expr>, &[Token]), PartStop>
    ensures value { (n : ℕ) → length tokens.now < n
        → Gives (λ x. expressions x.0.items) (λ x. x.1.now) result (list0 (expr n) n tokens.now) }
    ensures shorter { IfOk result (λ x. length x.1.now ≤ length tokens.now) }
{
    if starts_mark(Mark::ParenRight, tokens) {
        return Ok((Vec::new(alloc), tokens));
    }
    expressions(alloc, tokens)
}

/// Reads the arguments of a call with their parentheses.
pub(crate) fn arguments(alloc: Global, tokens: &[Token]) -> Result<(Vec<Expr>, &[Token]), PartStop>
    ensures value { (n : ℕ) → length tokens.now < n
        → Gives (λ x. expressions x.0.items) (λ x. x.1.now) result (arguments n tokens.now) }
    ensures shorter { IfOk result (λ x. length x.1.now < length tokens.now) }
{
    let (_, rest) = expect(Mark::ParenLeft, tokens)?;
    let (found, rest) = expressions_inside(alloc, rest)?;
    closed(found, Mark::ParenRight, rest)
}

/// Reads a `,` and a name.
fn further_name(alloc: Global, tokens: &[Token]) -> Result<(Name, &[Token]), PartStop>
    ensures value { Gives (λ x. x.0) (λ x. x.1.now) result
        (lead (is_mark marks.Comma) word tokens.now) }
    ensures shorter { IfOk result (λ x. length x.1.now < length tokens.now) }
{
    let (_, rest) = expect(Mark::Comma, tokens)?;
    word(alloc, rest)
}

/// Reads one or more names with `,` between them.
pub(crate) fn names(alloc: Global, tokens: &[Token]) -> Result<(Vec<Name>, &[Token]), PartStop>
    ensures value { (n : ℕ) → length tokens.now < n
        → Gives (λ x. x.0.items) (λ x. x.1.now) result (list word n tokens.now) }
    ensures shorter { IfOk result (λ x. length x.1.now < length tokens.now) }
{
    let (first, mut rest) = word(alloc, tokens)?;
    let mut found = single(alloc, first)?;
    'items: while starts_mark(Mark::Comma, rest) {
        let (one, behind) = further_name(alloc, rest)?;
        found.push(one)?;
        rest = behind;
    }
    Ok((found, rest))
}
