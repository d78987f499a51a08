//! Laws of generated texts. Each function does nothing: its contract is the law.

ghost use Rattle.generated_files.specs.Laws.{GeneratedTextsAreFaultless, GeneratedTextsAreShort};

/// A generated text of `n` lines, at most the limit of procedures, spells a file of `n` procedures
/// without an error.
pub fn generated_texts_are_faultless()
    ensures { GeneratedTextsAreFaultless }
{}

/// A generated text of `n` lines, at most the limit of procedures, has at most `300 * n` bytes.
pub fn generated_texts_are_short()
    ensures { GeneratedTextsAreShort }
{}
