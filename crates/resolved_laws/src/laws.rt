//! Laws of typed trees. Each function does nothing: its contract is the law.

ghost use Rattle.resolved_laws.specs.ResolvedLaws as trees;
ghost use Rattle.resolved_laws.specs.ResolvedSizes as sizes;

/// In a file without findings, each typed procedure satisfies the static rules. A typed file that
/// holds the typed procedures of such a file satisfies all of them if each `if` has an arm, there
/// are at most 1,024 procedures, and its numbers are in range.
pub fn resolved_files_meet_the_rules()
    ensures procedures { trees.ResolvedProceduresMeetRules }
    ensures files { trees.ResolvedFilesMeetRules }
{}

/// In a file without findings, each formula and condition of a typed procedure has at most 64 nodes
/// more than twice the number of nodes of the procedure's expressions.
pub fn resolved_forms_are_small()
    ensures { sizes.ResolvedFormsAreSmall }
{}
