//! Laws of the results of `resolve`. Each function does nothing: its contract is the law.

ghost use Rattle.resolved_laws.specs.ResolvedLaws as trees;

use crate::laws::resolved_files_meet_the_rules;

/// Two results of `resolve` on one file agree: both are typed files with equal plain trees, both
/// are the same error, or one of them says that memory ran out.
pub fn resolving_is_unique()
    ensures { trees.ResolvingIsUnique }
{}

/// A typed file that `resolve` returns satisfies the static rules if it has at most 1,024
/// procedures and if each `if` of its file has an arm.
pub fn resolved_trees_meet_the_rules()
    ensures { trees.ResolvedTreesMeetRules }
{
    resolved_files_meet_the_rules();
}
