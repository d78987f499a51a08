//! The law of the length of paths. The function does nothing: its contract is the law.

ghost use Rattle.linear_form.specs.PathLaws as law;

/// States that a path has at most as many comparisons as the two forms of its goal have nodes.
pub fn paths_are_short()
    ensures { law.PathsAreShort }
{}
