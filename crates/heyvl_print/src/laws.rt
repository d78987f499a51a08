//! Laws of the canonical text.

ghost use Rattle.heyvl_print.specs.Laws.{LexedTokensArePrintable, PrintableFilesSpell};
ghost use Rattle.heyvl_print.specs.Laws.{PrintedTextSpells, PrintingIsStable, TextIgnoresPlaces};

/// If some bytes spell a file, its canonical text spells the same file, up to places.
pub fn printed_text_spells_the_file()
    ensures { PrintedTextSpells }
{}

/// If some tokens spell a file and all of them are printable, its canonical text spells the same
/// file, up to places. The tokens of bytes are printable.
pub fn printable_files_are_spelled()
    ensures spells { PrintableFilesSpell }
    ensures lexed { LexedTokensArePrintable }
{}

/// Files that differ in places alone have the same canonical text.
pub fn text_ignores_places()
    ensures { TextIgnoresPlaces }
{}

/// If some bytes spell a file, its canonical text spells a file whose canonical text it is too.
pub fn printing_is_stable()
    ensures { PrintingIsStable }
{}
