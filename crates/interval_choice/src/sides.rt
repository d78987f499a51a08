//! The two sides of an interval, and its ends.

ghost use Rattle.linear_rows.specs.GreedyPoint.{End as EndValue};

use heyvl_num::Frac;
use std::marker::Model;

/// A side of an interval: its lower or its upper end.
#[derive(Clone, Copy)]
pub enum Side {
    Low,
    High,
}

/// An end of an interval: the place where it is, and whether the place is inside the interval.
#[derive(Clone, Copy)]
pub struct End {
    pub place: Frac,
    pub inside: bool,
}

impl Model for End {
    ghost Value = { EndValue };

    ghost view = { λ e. record { place = e.place; inside = e.inside } };

    ghost inverse = { λ e. record { place = e.place; inside = e.inside } };

    ghost inverse_ok = { λ a h i. a };
}
