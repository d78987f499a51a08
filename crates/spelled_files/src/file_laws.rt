//! Laws of files that bytes spell and that have no static error. Each function does nothing: its
//! contract is the law.

ghost use Rattle.spelled_files.specs.FileLaws as law;

use resolved_laws::resolved_forms_are_small;

/// In a file of at most 2^20 tokens without a static error, each form and condition has at most
/// 2^27 nodes.
pub fn files_have_small_forms()
    ensures { law.FilesHaveSmallForms }
{
    resolved_forms_are_small();
}

/// In a file that bytes spell, each statement and each product in a form begins within the bytes.
pub fn files_stand_within()
    ensures { law.FilesStandWithin }
{}
