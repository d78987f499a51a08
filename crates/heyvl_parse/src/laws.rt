//! Uniqueness of what tokens spell.

ghost use Rattle.heyvl_parse.specs.Laws.{ExpressionIsUnique, FileIsUnique};

/// Tokens spell at most one expression.
pub fn expression_is_unique()
    ensures { ExpressionIsUnique }
{}

/// Tokens spell at most one file.
pub fn file_is_unique()
    ensures { FileIsUnique }
{}
