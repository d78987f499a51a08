//! Sign rows, by which a variable is not negative.

ghost use Rattle.std.specs.Prelude.{◌≡◌, cond, Some, None};
ghost use Rattle.linear_dominance.specs.DominatedRows.{first_variable, is_sign_row};

use linear_rows::Row;

/// Returns the variable `x` if `row` is `-x <= 0`.
pub fn sign_of(row: &Row) -> Option<u32>
    ensures { result ≡ cond (is_sign_row row.now) (Some (first_variable row.now.terms)) None }
{
    let terms: &[(u32, i64)] = &row.terms;
    if terms.len() != 1 {
        return None;
    }
    let (variable, coefficient) = terms[0];
    if coefficient == -1 && row.rest == 0 && !row.strict {
        Some(variable)
    } else {
        None
    }
}
