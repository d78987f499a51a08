//! The rules of a node.

ghost use Rattle.typed_expressions.specs.Answers.{TellsFirst};
ghost use Rattle.typed_expressions.specs.Findings.{at};

use crate::stops::ResolveStop;
use heyvl_places::Span;

/// Returns the first of `rules` that is broken as an error at `span`. Each rule is its number and
/// whether it is broken.
pub fn told(span: Span, rules: &[(u8, bool)]) -> Result<(), ResolveStop>
    ensures { TellsFirst result (at span rules.now) }
{
    for (number, broken) in rules {
        if *broken {
            return Err(ResolveStop::Fault(*number, span));
        }
    }
    Ok(())
}
