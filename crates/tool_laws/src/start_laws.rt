//! The law of the number of names that are started.

ghost use Rattle.tool_laws.specs.StartLaws.{StartsAreCounted};

use heyvl_io::names_in_order;

/// Assume that a source reports the order of its starts, has started nothing, and has the files of
/// the arguments as its first names. It then starts no name if the arguments are not a valid
/// command or those of a command without files; the first file if that one cannot be read or is too
/// long; both files if the second one cannot be read or is too long; and never another name.
pub fn starts_are_counted()
    ensures { StartsAreCounted }
{
    names_in_order();
}
