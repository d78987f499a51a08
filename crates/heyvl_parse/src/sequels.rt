//! Combining what was read with what is read after it.

ghost use Rattle.heyvl_parse.specs.readers.Combinators.{trail};
ghost use Rattle.heyvl_parse.specs.readers.ReadParts.{Got, is_mark};
ghost use Rattle.heyvl_parse.specs.readers.Results.{Gives};
ghost use Rattle.std.specs.Prelude.{Err, IfOk, MatchResult, Ok, length, ◌<◌, ◌≡◌};

use crate::stops::PartStop;
use crate::tokens::expect;
use heyvl_syntax::{Mark, Token};

/// Reads the symbol `mark`, and returns `read`, which was read before it.
pub fn closed<'a, T: Drop>(
    read: T,
    mark: Mark,
    tokens: &'a [Token],
) -> Result<(T, &'a [Token]), PartStop>
    ensures value { Gives (λ x. x.0) (λ x. x.1.now) result
        (trail (λ ts. Got read ts) (is_mark mark) tokens.now) }
    ensures shorter { IfOk result (λ x. length x.1.now < length tokens.now) }
{
    let (_, rest) = expect(mark, tokens)?;
    Ok((read, rest))
}

/// Pairs `first`, which was read before, with the result of reading `second`.
pub fn beside<'a, A: Drop, B: Drop>(
    first: A,
    second: Result<(B, &'a [Token]), PartStop>,
) -> Result<((A, B), &'a [Token]), PartStop>
    ensures { MatchResult second.entry (λ x. result ≡ Ok ((first, x.0), x.1))
        (λ stop. result ≡ Err stop) }
{
    match second {
        Ok((second, rest)) => Ok(((first, second), rest)),
        Err(stop) => Err(stop),
    }
}
