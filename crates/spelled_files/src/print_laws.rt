//! Laws of printing a file that bytes spell.

ghost use Rattle.spelled_files.specs.PrintLaws.{PrintedTextPrintsItself, SpellingIsUnique};

use heyvl_parse::file_is_unique;
use heyvl_print::printing_is_stable;
use heyvl_syntax::tokens_are_unique;

/// Bytes spell one file at most, places included.
pub fn spelling_is_unique()
    ensures { SpellingIsUnique }
{
    tokens_are_unique();
    file_is_unique();
}

/// Printing a printed text again yields the same bytes, if the printed text is within the limits of
/// a file.
pub fn printed_text_prints_itself()
    ensures { PrintedTextPrintsItself }
{
    printing_is_stable();
    spelling_is_unique();
}
