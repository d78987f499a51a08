//! The point of a false cell.

ghost use Rattle.std.specs.Prelude.{◌≡◌, ◌<◌, ◌^◌, length, IfOk};
ghost use Rattle.linear_form.specs.Query.{known};
ghost use Rattle.linear_form.specs.PlainPaths.{path_of};
ghost use Rattle.region_split.specs.PathPoints.{value_on, with_truths};

use heylo_formula::Val;
use linear_form::{Taken, known_truth};
use std::alloc::{AllocError, Global};

fn value_at(path: &[Taken], x: u32, value: Val) -> Val
    ensures { result ≡ value_on (known x (path_of path.now)) value }
{
    match known_truth(x, path, path.len()) {
        Some(holds) => Val::Truth(holds),
        None => value,
    }
}

/// Returns `values` with the truths of the Booleans that `path` has decided.
pub fn with_path(alloc: Global, path: &[Taken], values: &[Val]) -> Result<Vec<Val>, AllocError>
    requires { length values.now < 2 ^ 32 }
    ensures { IfOk result (λ v. v.items ≡ with_truths (path_of path.now) 0 values.now) }
{
    let mut out: Vec<Val> = Vec::new(alloc);
    'values: for i in 0..values.len() {
        out.push(value_at(path, i as u32, values[i]))?;
    }
    Ok(out)
}
