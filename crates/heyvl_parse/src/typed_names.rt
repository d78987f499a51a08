//! The parser of names with their types.

ghost use Rattle.heyvl_parse.specs.readers.Combinators.{lead};
ghost use Rattle.heyvl_parse.specs.readers.ReadParts.{is_mark, pair, type_name, word};
ghost use Rattle.heyvl_parse.specs.readers.Results.{Gives};
ghost use Rattle.heyvl_syntax.specs.declared.marks.Mark.TheVariants as marks;
ghost use Rattle.std.specs.Prelude.{IfOk, length, ◌<◌};

use crate::sequels::{beside, closed};
use crate::stops::PartStop;
use crate::tokens::{type_name, word};
use heyvl_places::Name;
use heyvl_syntax::{Mark, Token, TypeName};
use std::alloc::Global;

/// Reads a name, `:` and the type of the name.
pub(crate) fn typed_name(
    alloc: Global,
    tokens: &[Token],
) -> Result<((Name, TypeName), &[Token]), PartStop>
    ensures value { Gives (λ x. x.0) (λ x. x.1.now) result
        (pair word (lead (is_mark marks.Colon) type_name) tokens.now) }
    ensures shorter { IfOk result (λ x. length x.1.now < length tokens.now) }
{
    let (name, rest) = word(alloc, tokens)?;
    let (name, rest) = closed(name, Mark::Colon, rest)?;
    beside(name, type_name(rest))
}
