//! The test whether a row implies another.

ghost use Rattle.std.specs.Prelude.{◌≡◌, ◌<◌, ◌≤◌, ◌+◌, ◌^◌, length, drop, unsigned_abs};
ghost use Rattle.std.specs.List.{All};
ghost use Rattle.linear_rows.specs.Terms.{IsNormal, is_in};
ghost use Rattle.linear_rows.specs.Row.{IsRow};
ghost use Rattle.linear_dominance.specs.DominatedRows.{less, is_increase, dominates};
ghost use Rattle.linear_dominance.specs.internal.NextLess.{IsNextLess};

use linear_rows::Row;

/// Returns whether `x` is one of `variables`.
fn contains(variables: &[u32], x: u32) -> bool
    ensures { result ≡ is_in x variables.now }
{
    for i in 0..variables.len() {
        if x == variables[i] {
            return true;
        }
    }
    false
}

/// The next term of a difference, and the places after it in the left and the right list.
#[derive(Clone, Copy)]
struct Next {
    var: u32,
    coef: i64,
    left: usize,
    right: usize,
}

/// Returns the term of the lower variable at the places `i` of `a` and `j` of `b`, for `a - b`.
fn next_less(a: &[(u32, i64)], i: usize, b: &[(u32, i64)], j: usize) -> Next
    requires left_normal { IsNormal (drop i a.now) }
    requires right_normal { IsNormal (drop j b.now) }
    requires left_narrow { All (λ t. unsigned_abs t.1 < 2 ^ 62) a.now }
    requires right_narrow { All (λ t. unsigned_abs t.1 < 2 ^ 62) b.now }
    requires left_within { i ≤ length a.now }
    requires right_within { j ≤ length b.now }
    requires more { i + j < length a.now + length b.now }
    ensures next { IsNextLess a.now i b.now j result.var result.coef result.left result.right }
{
    if i < a.len() {
        let (v, c) = a[i];
        if j < b.len() {
            let (w, d) = b[j];
            if v < w {
                Next {
                    var: v,
                    coef: c,
                    left: i + 1,
                    right: j,
                }
            } else if w < v {
                Next {
                    var: w,
                    coef: -d,
                    left: i,
                    right: j + 1,
                }
            } else {
                Next {
                    var: v,
                    coef: c - d,
                    left: i + 1,
                    right: j + 1,
                }
            }
        } else {
            Next {
                var: v,
                coef: c,
                left: i + 1,
                right: j,
            }
        }
    } else {
        let (w, d) = b[j];
        Next {
            var: w,
            coef: -d,
            left: i,
            right: j + 1,
        }
    }
}

/// Returns whether `a - b` has terms, and each has a positive coefficient and a variable of
/// `signed`.
fn are_greater(signed: &[u32], a: &[(u32, i64)], b: &[(u32, i64)]) -> bool
    requires left_normal { IsNormal a.now }
    requires right_normal { IsNormal b.now }
    requires left_narrow { All (λ t. unsigned_abs t.1 < 2 ^ 62) a.now }
    requires right_narrow { All (λ t. unsigned_abs t.1 < 2 ^ 62) b.now }
    ensures { result ≡ is_increase signed.now (less a.now b.now) }
{
    let mut differs = false;
    let mut i: usize = 0;
    let mut j: usize = 0;
    while i < a.len() || j < b.len() {
        let next = next_less(a, i, b, j);
        if next.coef < 0 {
            return false;
        }
        if next.coef > 0 {
            if !contains(signed, next.var) {
                return false;
            }
            differs = true;
        }
        i = next.left;
        j = next.right;
    }
    differs
}

/// Returns whether the row `s` implies the row `r` and has other terms, if the variables `signed`
/// are not negative.
pub fn dominates(signed: &[u32], s: &Row, r: &Row) -> bool
    requires first { IsRow s.now }
    requires second { IsRow r.now }
    ensures { result ≡ dominates signed.now s.now r.now }
{
    if s.rest < r.rest {
        return false;
    }
    if r.strict && !s.strict {
        return false;
    }
    are_greater(signed, &s.terms, &r.terms)
}
