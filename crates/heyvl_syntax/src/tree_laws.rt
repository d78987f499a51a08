//! Laws of trees: the plain trees that the definitions use in place of the trees in memory, and the
//! size of trees.

ghost use Rattle.heyvl_syntax.specs.PlainTrees.{PlainExpressions, PlainStatements};
ghost use Rattle.heyvl_syntax.specs.Sizes.{ExpressionsAreFew};

/// States the plain tree of each variant of an expression.
pub fn expressions_are_plain()
    ensures { PlainExpressions }
{}

/// States the plain tree of each variant of a statement, and of an arm.
pub fn statements_are_plain()
    ensures { PlainStatements }
{}

/// States that the expressions of a file have together at most as many nodes as the file has
/// tokens.
pub fn expressions_are_few()
    ensures { ExpressionsAreFew }
{}
