//! The sizes of forms, conditions and terms. No count exceeds 2^63.

ghost use Rattle.std.specs.Prelude.{◌≡◌, ◌+◌, ◌^◌, min};
ghost use Rattle.heylo_formula.specs.PlainTrees.{form_of, cond_of, term_of};
ghost use Rattle.heylo_formula.specs.Sizes.{nodes, nodes_in, nodes_in_term, depth, depth_in};

use crate::forms::{Cond, Form};
use crate::terms::Term;

const MOST: u64 = 1 << 63;

impl Form {
    /// Returns the number of nodes, those of conditions included, or 2^63 if it is larger.
    #[cycle(counting)]
    pub fn nodes(&self) -> u64
        ensures { result ≡ min (2 ^ 63) (nodes (form_of self.now)) }
    {
        match self {
            Form::Const(_) | Form::Var(_) => 1,
            Form::Sum(a, b)
            | Form::Diff(a, b)
            | Form::Cut(a, b)
            | Form::Product(a, b, _)
            | Form::Min(a, b)
            | Form::Max(a, b)
            | Form::Imply(a, b)
            | Form::CoImply(a, b) => above(both(a.nodes(), b.nodes())),
            Form::Scale(_, a)
            | Form::Validate(a)
            | Form::CoValidate(a)
            | Form::Bind(_, _, _, _, a) => above(a.nodes()),
            Form::Embed(g) | Form::Iverson(g) => above(g.nodes()),
            Form::Select(g, a, b) => above(both(g.nodes(), both(a.nodes(), b.nodes()))),
        }
    }
}

impl Cond {
    /// Returns the number of nodes, those of forms included, or 2^63 if it is larger.
    #[cycle(counting)]
    pub fn nodes(&self) -> u64
        ensures { result ≡ min (2 ^ 63) (nodes_in (cond_of self.now)) }
    {
        match self {
            Cond::Const(_) | Cond::Var(_) => 1,
            Cond::Not(g) => above(g.nodes()),
            Cond::And(g, h) | Cond::Or(g, h) | Cond::Same(g, h) => above(both(
                g.nodes(),
                h.nodes(),
            )),
            Cond::Le(a, b) | Cond::Lt(a, b) | Cond::EqNum(a, b) => above(both(
                a.nodes(),
                b.nodes(),
            )),
            Cond::Ite(g, h, k) => above(both(g.nodes(), both(h.nodes(), k.nodes()))),
        }
    }
}

impl Form {
    /// Returns the number of nodes on a longest path from the root to a leaf, or 2^63 if it is
    /// larger. A leaf has depth 1.
    #[cycle(descending)]
    pub fn depth(&self) -> u64
        ensures { result ≡ min (2 ^ 63) (depth (form_of self.now)) }
    {
        match self {
            Form::Const(_) | Form::Var(_) => 1,
            Form::Sum(a, b)
            | Form::Diff(a, b)
            | Form::Cut(a, b)
            | Form::Product(a, b, _)
            | Form::Min(a, b)
            | Form::Max(a, b)
            | Form::Imply(a, b)
            | Form::CoImply(a, b) => above(a.depth().max(b.depth())),
            Form::Scale(_, a)
            | Form::Validate(a)
            | Form::CoValidate(a)
            | Form::Bind(_, _, _, _, a) => above(a.depth()),
            Form::Embed(g) | Form::Iverson(g) => above(g.depth()),
            Form::Select(g, a, b) => above(g.depth().max(a.depth().max(b.depth()))),
        }
    }
}

impl Cond {
    /// Returns the number of nodes on a longest path from the root to a leaf, or 2^63 if it is
    /// larger. A leaf has depth 1.
    #[cycle(descending)]
    pub fn depth(&self) -> u64
        ensures { result ≡ min (2 ^ 63) (depth_in (cond_of self.now)) }
    {
        match self {
            Cond::Const(_) | Cond::Var(_) => 1,
            Cond::Not(g) => above(g.depth()),
            Cond::And(g, h) | Cond::Or(g, h) | Cond::Same(g, h) => above(g.depth().max(h.depth())),
            Cond::Le(a, b) | Cond::Lt(a, b) | Cond::EqNum(a, b) => above(a.depth().max(b.depth())),
            Cond::Ite(g, h, k) => above(g.depth().max(h.depth().max(k.depth()))),
        }
    }
}

impl Term {
    /// Returns the number of nodes, or 2^63 if it is larger.
    pub fn nodes(&self) -> u64
        ensures { result ≡ min (2 ^ 63) (nodes_in_term (term_of self.now)) }
    {
        match self {
            Term::Truth(g) => g.nodes(),
            Term::Num(f) => f.nodes(),
        }
    }
}

/// Returns `count` + 1, or 2^63 if it is larger.
pub fn above(count: u64) -> u64
    ensures { (m : _) → count ≡ min (2 ^ 63) m → result ≡ min (2 ^ 63) (1 + m) }
{
    if count >= MOST { MOST } else { count + 1 }
}

/// Returns `left` + `right`, or 2^63 if it is larger.
pub fn both(left: u64, right: u64) -> u64
    ensures { (m : _) (n : _) → left ≡ min (2 ^ 63) m → right ≡ min (2 ^ 63) n
        → result ≡ min (2 ^ 63) (m + n) }
{
    if left >= MOST || right >= MOST || left + right >= MOST {
        MOST
    } else {
        left + right
    }
}
