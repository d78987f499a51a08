//! The binary operators and the table of their ranks.

ghost use Rattle.heyvl_parse.specs.readers.ReadParts.{next_level, operator_of, operator_within};
ghost use Rattle.heyvl_syntax.specs.Grammar.{ranks};
ghost use Rattle.std.specs.Prelude.{IfSome, MatchOption, None, Some, length, ◌<◌, ◌≡◌, ◌≤◌};

use heyvl_places::Span;
use heyvl_syntax::{BinaryOp, Key, Mark, Token, TokenKind};

/// The rank of an operator, and the highest ranks that its left and its right operand may have.
/// Rank 8 binds loosest.
#[derive(Clone, Copy)]
pub(crate) struct Row {
    pub rank: u8,
    pub left: u8,
    pub right: u8,
}

impl Row {
    fn new(rank: u8, left: u8, right: u8) -> Row
        ensures rank { result.rank ≡ rank }
        ensures left { result.left ≡ left }
        ensures right { result.right ≡ right }
    {
        Row { rank, left, right }
    }
}

/// Returns the row of `op` in the table of the ranks.
pub(crate) fn ranks(op: BinaryOp) -> Row
    ensures rank { result.rank ≡ (ranks op).rank }
    ensures left { result.left ≡ (ranks op).left }
    ensures right { result.right ≡ (ranks op).right }
    ensures bound { result.right ≤ 8 }
    ensures loosest { result.rank ≤ 8 }
{
    match op {
        BinaryOp::Imply | BinaryOp::CoImply => Row::new(8, 7, 8),
        BinaryOp::Cup => Row::new(7, 7, 6),
        BinaryOp::Cap => Row::new(6, 6, 5),
        BinaryOp::Or => Row::new(5, 5, 4),
        BinaryOp::And => Row::new(4, 4, 3),
        BinaryOp::Same | BinaryOp::Differ => Row::new(3, 2, 2),
        BinaryOp::Less | BinaryOp::AtMost => Row::new(3, 2, 2),
        BinaryOp::More | BinaryOp::AtLeast => Row::new(3, 2, 2),
        BinaryOp::Plus | BinaryOp::Minus => Row::new(2, 2, 1),
        BinaryOp::Star | BinaryOp::Slash => Row::new(1, 1, 0),
    }
}

/// Returns the least rank of an operator that may follow the right operand of `op`.
pub(crate) fn next_level(op: BinaryOp) -> u8
    ensures { result ≡ next_level op }
{
    let row = ranks(op);
    if row.left == row.rank {
        row.rank
    } else {
        row.rank + 1
    }
}

/// Returns the binary operator that a token is, if it is one.
pub(crate) fn operator_of(kind: &TokenKind) -> Option<BinaryOp>
    ensures { result ≡ operator_of kind.now }
{
    match kind {
        TokenKind::Key(key) => match key {
            Key::Cup => Some(BinaryOp::Cup),
            Key::Cap => Some(BinaryOp::Cap),
            _ => None,
        },
        TokenKind::Mark(mark) => match mark {
            Mark::Imply => Some(BinaryOp::Imply),
            Mark::CoImply => Some(BinaryOp::CoImply),
            Mark::OrOr => Some(BinaryOp::Or),
            Mark::AndAnd => Some(BinaryOp::And),
            Mark::Same => Some(BinaryOp::Same),
            Mark::Differ => Some(BinaryOp::Differ),
            Mark::Less => Some(BinaryOp::Less),
            Mark::AtMost => Some(BinaryOp::AtMost),
            Mark::More => Some(BinaryOp::More),
            Mark::AtLeast => Some(BinaryOp::AtLeast),
            Mark::Plus => Some(BinaryOp::Plus),
            Mark::Minus => Some(BinaryOp::Minus),
            Mark::Star => Some(BinaryOp::Star),
            Mark::Slash => Some(BinaryOp::Slash),
            _ => None,
        },
        TokenKind::Word(_) => None,
        TokenKind::Number(_) => None,
    }
}

/// Reads an operator of a rank from `low` to `high`, if the first token is one, and returns its
/// place too.
pub(crate) fn operator_within(
    low: u8,
    high: u8,
    tokens: &[Token],
) -> Option<(BinaryOp, Span, &[Token])>
    ensures value { MatchOption result (operator_within low high tokens.now ≡ None)
        (λ x. operator_within low high tokens.now ≡ Some (x.0, x.1, x.2.now)) }
    ensures shorter { IfSome result (λ x. length x.2.now < length tokens.now) }
{
    let (token, rest) = tokens.split_first()?;
    let op = operator_of(&token.kind)?;
    let rank = ranks(op).rank;
    if low <= rank && rank <= high {
        Some((op, token.span, rest))
    } else {
        None
    }
}
