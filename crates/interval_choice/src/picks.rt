//! The value that a variable takes between the ends of its interval.
ghost use Rattle.std.specs.Prelude.{◌≡◌, ◌↔◌, ◌<◌, ◌^◌, ◌+ℤ◌, ◌-ℤ◌, pos, true, unsigned_abs};
ghost use Rattle.std.specs.Prelude.{IfSome, MatchOption, IsTrue};
ghost use Rattle.heylo_formula.specs.declared.types.Ty.{Ty as TyValue};
ghost use Rattle.heyvl_num.specs.Rational.{Rational, zeroʳ};
ghost use Rattle.linear_rows.specs.Numbers.{fits as number_fits};
ghost use Rattle.linear_rows.specs.VariableTypes.{is_numeric, is_integral};
ghost use Rattle.linear_rows.specs.GreedyPoint.{IsInside};
ghost use Rattle.interval_choice.specs.Sides.{IsWithin, IsPast};
ghost use Rattle.interval_choice.specs.declared.sides.Side.{Side as SideValue};
ghost use Rattle.interval_choice.specs.Picks.{IsNextWhole, IsPicked, sided, across, between};
ghost use Rattle.interval_choice.specs.Picks.{narrow_pick, broken_pick, past_place};

use crate::fractions::{fits, middle, order, sum, whole_number, whole_of};
use crate::sides::{End, Side};
use heylo_formula::Ty;
use heyvl_num::Frac;
use std::cmp::Ordering;

/// The choice in an interval: a value; or none, because there is no integer between these two ends;
/// or none, because the value overflows.
#[derive(Clone, Copy)]
pub enum Pick {
    Value(Frac),
    Breaks(End, End),
    Great,
}

/// Returns whether the value `v` satisfies the end `e`.
fn keeps(side: Side, e: End, v: &Frac) -> bool
    requires place { number_fits e.place ≡ true }
    requires num { unsigned_abs v.now.num < 2 ^ 63 }
    requires den { v.now.den < 2 ^ 63 }
    ensures { IsTrue result ↔ IsWithin side e v.now }
{
    match (order(&e.place, v), side) {
        (Ordering::Equal, _) => e.inside,
        (Ordering::Less, Side::Low) => true,
        (Ordering::Less, Side::High) => false,
        (Ordering::Greater, Side::Low) => false,
        (Ordering::Greater, Side::High) => true,
    }
}

fn one_more(n: i128) -> i128
    requires { unsigned_abs n < 2 ^ 63 }
    ensures { result ≡ n +ℤ pos 1 }
{
    n + 1
}

fn one_less(n: i128) -> i128
    requires { unsigned_abs n < 2 ^ 63 }
    ensures { result ≡ n -ℤ pos 1 }
{
    n - 1
}

/// Returns the integer nearest to an end, among those that satisfy it.
fn next_whole(side: Side, near: End) -> i128
    requires { number_fits near.place ≡ true }
    ensures { IsNextWhole side near result }
{
    match (side, near.inside) {
        (Side::Low, true) => near.place.ceil(),
        (Side::Low, false) => one_more(near.place.floor()),
        (Side::High, true) => near.place.floor(),
        (Side::High, false) => one_less(near.place.ceil()),
    }
}

fn opposite(side: Side) -> Side
    ensures { result ≡ across side }
{
    match side {
        Side::Low => Side::High,
        Side::High => Side::Low,
    }
}

/// Returns the choice `v`, unless it overflows.
fn narrowed(v: Frac) -> Pick
    ensures { result ≡ narrow_pick v }
{
    if fits(&v) {
        Pick::Value(v)
    } else {
        Pick::Great
    }
}

/// Returns the break between two ends, the low end first.
fn breaks(side: Side, near: End, far: End) -> Pick
    ensures { result ≡ broken_pick side near far }
{
    match side {
        Side::Low => Pick::Breaks(near, far),
        Side::High => Pick::Breaks(far, near),
    }
}

/// Returns the choice for an integer variable, if 0 does not satisfy the end `near`: the integer
/// nearest to this end.
fn whole_pick(side: Side, near: End, far: Option<End>) -> Pick
    requires near { number_fits near.place ≡ true }
    requires far { IfSome far (λ e. number_fits e.place ≡ true) }
    ensures { (ty : TyValue) → (is_integral ty ≡ true) → (IsWithin side near zeroʳ → ⊥)
        → IsPicked (sided side near far) ty result }
{
    let v = whole_number(next_whole(side, near));
    if let Some(end) = far {
        if !keeps(opposite(side), end, &v) {
            return breaks(side, near, end);
        }
    }
    narrowed(v)
}

/// Returns the place 1 beyond an end.
fn past(side: Side, place: &Frac) -> Frac
    requires { number_fits place.now ≡ true }
    ensures { result ≡ past_place side place.now }
{
    match side {
        Side::Low => sum(place, &whole_of(1)),
        Side::High => sum(place, &whole_of(-1)),
    }
}

/// Returns the choice for a `UReal`, if 0 does not satisfy the end `near`: this end if it is
/// inside, otherwise the middle of both ends, or 1 beyond the end if it is the only one.
fn real_pick(side: Side, near: End, far: Option<End>) -> Pick
    requires near { number_fits near.place ≡ true }
    requires far { IfSome far (λ e. number_fits e.place ≡ true) }
    ensures { (IsWithin side near zeroʳ → ⊥) → (w : Rational) → IsInside (sided side near far) w
        → IsPicked (sided side near far) TyValue.UReal result }
{
    if near.inside {
        return Pick::Value(near.place);
    }
    match far {
        Some(end) => narrowed(middle(&near.place, &end.place)),
        None => narrowed(past(side, &near.place)),
    }
}

/// Returns the choice for a variable, if 0 does not satisfy the end `near`.
fn near_pick(side: Side, near: End, far: Option<End>, ty: Ty) -> Pick
    requires near { number_fits near.place ≡ true }
    requires far { IfSome far (λ e. number_fits e.place ≡ true) }
    ensures { is_numeric ty ≡ true → (IsWithin side near zeroʳ → ⊥) → (w : Rational)
        → IsInside (sided side near far) w → IsPicked (sided side near far) ty result }
{
    match ty {
        Ty::Int => whole_pick(side, near, far),
        Ty::UInt => whole_pick(side, near, far),
        Ty::UReal => real_pick(side, near, far),
        Ty::Bool => real_pick(side, near, far),
    }
}

/// Returns the choice for a variable, if 0 does not satisfy the end `end`.
fn taken_near(side: Side, end: &Option<End>, far: &Option<End>, ty: Ty) -> Option<Pick>
    requires end { IfSome end.now (λ e. number_fits e.place ≡ true) }
    requires far { IfSome far.now (λ e. number_fits e.place ≡ true) }
    ensures { MatchOption result (IsPast side end.now zeroʳ) (λ p. is_numeric ty ≡ true
        → (w : Rational) → IsInside (between side end.now far.now) w
        → IsPicked (between side end.now far.now) ty p) }
{
    match end {
        None => None,
        Some(near) => {
            if keeps(side, *near, &Frac::zero()) {
                None
            } else {
                Some(near_pick(side, *near, *far, ty))
            }
        }
    }
}

/// Returns the choice for a variable between two ends.
pub fn taken_between(low: &Option<End>, high: &Option<End>, ty: Ty) -> Pick
    requires low { IfSome low.now (λ e. number_fits e.place ≡ true) }
    requires high { IfSome high.now (λ e. number_fits e.place ≡ true) }
    ensures { is_numeric ty ≡ true → (w : Rational)
        → IsInside (between SideValue.Low low.now high.now) w
        → IsPicked (between SideValue.Low low.now high.now) ty result }
{
    match taken_near(Side::Low, low, high, ty) {
        Some(taken) => taken,
        None => match taken_near(Side::High, high, low, ty) {
            Some(taken) => taken,
            None => Pick::Value(Frac::zero()),
        },
    }
}
