//! Laws of the bytes of programs.

ghost use Rattle.guarded_commands.specs.Sources.{PgclFaultIsUnique, PgclSourceIsUnique};
ghost use Rattle.guarded_commands.specs.Sources.{PgclSourcesHaveNoFault};

use heyvl_syntax::{faults_are_unique, tokens_are_unique, tokens_exclude_faults};

/// Bytes are translated to at most one file, have at most one first error, and never both.
pub fn pgcl_sources_are_unique()
    ensures source { PgclSourceIsUnique }
    ensures fault { PgclFaultIsUnique }
    ensures either { PgclSourcesHaveNoFault }
{
    tokens_are_unique();
    faults_are_unique();
    tokens_exclude_faults();
}
