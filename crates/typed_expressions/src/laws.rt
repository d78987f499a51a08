//! Laws of typed expressions. Each function does nothing: its contract is the law.

ghost use Rattle.typed_expressions.specs.ExpressionLaws as expressions;

/// An elaborated expression is well typed for the types of its scope and has its type, and it has
/// at most twice as many nodes as the expression.
pub fn expressions_are_typed()
    ensures { expressions.ExpressionsAreTyped }
{}
