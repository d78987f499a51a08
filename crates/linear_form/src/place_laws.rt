//! The law of places. The function does nothing: its contract is the law.

ghost use Rattle.linear_form.specs.Places.{PlacesStay};

/// States that a place on a path is a place on each longer path.
pub fn places_stay()
    ensures { PlacesStay }
{}
