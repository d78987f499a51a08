//! Laws of the grammar of programs, and of their translation.

ghost use Rattle.guarded_commands.specs.Laws.{ProgramFaultIsUnique, ProgramIsUnique};
ghost use Rattle.guarded_commands.specs.TranslationFaults.{TranslationFaultIsUnique};
ghost use Rattle.guarded_commands.specs.TranslationFaults.{TranslationsHaveNoFault};
ghost use Rattle.guarded_commands.specs.Translations.{TranslationIsUnique, TranslationsSpell};

use heyvl_print::{printable_files_are_spelled, text_ignores_places};

/// Tokens spell at most one program.
pub fn program_is_unique()
    ensures { ProgramIsUnique }
{}

/// Tokens have at most one first error as a program.
pub fn program_fault_is_unique()
    ensures { ProgramFaultIsUnique }
{}

/// Tokens are translated to at most one file.
pub fn translation_is_unique()
    ensures { TranslationIsUnique }
{}

/// Tokens have at most one first error in translation, and those that are translated have none.
pub fn translation_fault_is_unique()
    ensures unique { TranslationFaultIsUnique }
    ensures none { TranslationsHaveNoFault }
{}

/// If the tokens of some bytes are translated to a file, its canonical text spells the same file,
/// up to places.
pub fn translations_are_spelled()
    ensures { TranslationsSpell }
{
    printable_files_are_spelled();
    text_ignores_places();
}
