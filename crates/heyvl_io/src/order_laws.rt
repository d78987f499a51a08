ghost use Rattle.heyvl_io.specs.OrderLaws.{NextNameCounts, OtherNameEnds};

/// Laws of the order of starts: a start of the next name counts one more, and a start of any other
/// name ends the order.
pub fn names_in_order()
    ensures next { NextNameCounts }
    ensures other { OtherNameEnds }
{}
