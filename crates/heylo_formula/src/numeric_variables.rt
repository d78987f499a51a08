//! Numeric variables outside conditions.

ghost use Rattle.heylo_formula.specs.NumericVariables.{has_variable};
ghost use Rattle.heylo_formula.specs.PlainTrees.{form_of};
ghost use Rattle.std.specs.Prelude.{◌≡◌};

use crate::forms::Form;

impl Form {
    /// Returns whether a numeric variable occurs outside conditions.
    pub fn has_variable(&self) -> bool
        ensures { result ≡ has_variable (form_of self.now) }
    {
        match self {
            Form::Const(_) | Form::Embed(_) | Form::Iverson(_) => false,
            Form::Var(_) => true,
            Form::Sum(a, b)
            | Form::Diff(a, b)
            | Form::Cut(a, b)
            | Form::Product(a, b, _)
            | Form::Min(a, b)
            | Form::Max(a, b)
            | Form::Imply(a, b)
            | Form::CoImply(a, b)
            | Form::Select(_, a, b) => a.has_variable() || b.has_variable(),
            Form::Scale(_, a)
            | Form::Validate(a)
            | Form::CoValidate(a)
            | Form::Bind(_, _, _, _, a) => a.has_variable(),
        }
    }
}
