//! The source and the sink of a call, as its contract describes them.

ghost use Rattle.tool_laws.specs.Calls.{Call, Moment, Names, call, moment, names_holding};
ghost use Rattle.tool_laws.specs.Outcomes.{Writing, writing};
ghost use Rattle.std.specs.Prelude.{List, ◌≡◌, ◌≤◌, ℕ};

use heyvl_io::{Sink, Source};

/// A source as the contract of a call describes it. Every source has this trait.
pub trait Called: Source {
    /// The names of the source, and their bytes.
    ghost told: { Self → Names };

    /// The source reports the same names and bytes, and its number of failures does not fall.
    ghost kept: { Self → Self → Type 0 };

    /// The source at one time.
    ghost seen: { Self → Moment };

    /// The call with these arguments, from the source before it to the source after it.
    ghost made: { List (List ℕ) → Self → Self → Call };
}

impl<F: Source> Called for F {
    ghost told = { λ s. names_holding (F.names s) (F.holds s) };

    ghost kept = { λ before after. (F.names after ≡ F.names before)
        × (F.holds after ≡ F.holds before) × (F.faults before ≤ F.faults after) };

    ghost seen = { λ s. moment (F.order s) (F.history s) (F.faults s) };

    ghost made = { λ words before after.
        call words (names_holding (F.names before) (F.holds before))
        (moment (F.order before) (F.history before) (F.faults before))
        (moment (F.order after) (F.history after) (F.faults after)) };
}

/// A sink as the contract of a call describes it. Every sink has this trait.
pub trait Written: Sink {
    /// What a call wrote, from the sink before it to the sink after it.
    ghost done: { Self → Self → Writing };
}

impl<K: Sink> Written for K {
    ghost done = { λ before after.
        writing (K.written before) (K.written after) (K.faults before) (K.faults after) };
}
