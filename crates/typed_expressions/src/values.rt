//! The formulas and conditions of elaborated expressions.

ghost use Rattle.heylo_formula.specs.PlainTrees.{cond_of, form_of};
ghost use Rattle.std.specs.Prelude.{◌≡◌, Some};
ghost use Rattle.typed_expressions.specs.Values.{condition, form};
ghost use Rattle.typed_expressions.specs.Views.{meaning_of};

use crate::meanings::Meaning;
use heylo_formula::{Cond, Form};
use heyvl_num::Ext;

/// Returns the formula of an elaborated expression; infinity if it is not a number.
pub fn form(meaning: Meaning) -> Form
    ensures { form_of result ≡ form (Some (meaning_of meaning)) }
{
    match meaning {
        Meaning::Number(_, form) => form,
        Meaning::Truth(_) | Meaning::Real => Form::Const(Ext::Inf),
    }
}

/// Returns the condition of an elaborated expression; `false` if it is not a condition.
pub fn condition(meaning: Meaning) -> Cond
    ensures { cond_of result ≡ condition (Some (meaning_of meaning)) }
{
    match meaning {
        Meaning::Truth(guard) => guard,
        Meaning::Number(_, _) | Meaning::Real => Cond::Const(false),
    }
}
