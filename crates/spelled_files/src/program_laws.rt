//! Laws of the files of programs of guarded commands. Each function does nothing: its contract is
//! the law.

ghost use Rattle.spelled_files.specs.Programs.{ProgramFaultIsUnique, ProgramFileIsUnique};
ghost use Rattle.spelled_files.specs.Programs.{ProgramFilesAreSpelled, ProgramFilesHaveNoFault};
ghost use Rattle.spelled_files.specs.Programs.{ProgramFilesHaveSums};

use crate::print_laws::spelling_is_unique;
use pgcl_front::{
    bounds_carry_over, pgcl_sources_are_unique, sums_are_equal, translations_are_spelled,
};
use placeless_files::places_do_not_run;

/// A program has either one file without a static error or one first error, and never both. The
/// canonical text of its file spells this file again, up to places.
pub fn program_files_are_unique()
    ensures file { ProgramFileIsUnique }
    ensures fault { ProgramFaultIsUnique }
    ensures either { ProgramFilesHaveNoFault }
    ensures spelled { ProgramFilesAreSpelled }
{
    pgcl_sources_are_unique();
    translations_are_spelled();
}

/// The upper sums of a program's runs, by the steps of guarded commands, are those of the runs of
/// `main` in the program's file; and if the bound of `main` holds, each of them is at most the
/// program's pre. Both are also true of each file that the canonical text of the program's file
/// spells.
pub fn program_files_have_sums()
    ensures { ProgramFilesHaveSums }
{
    sums_are_equal();
    bounds_carry_over();
    places_do_not_run();
    spelling_is_unique();
    program_files_are_unique();
}
