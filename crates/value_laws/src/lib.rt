//! Why no value of a shape stands at a place of a text: one fault with a cause at most, as laws.
#![tactic(auto)]

ghost use Rattle.value_laws.specs.Laws.{OneDeparture, NoDeparture, OneFault, NoFault};

/// A text departs from the values of a shape in one way at most, at one place.
pub fn one_departure()
    ensures { OneDeparture }
{}

/// A text at whose front a value of the shape stands departs from them in no way.
pub fn no_departure()
    ensures { NoDeparture }
{}

/// Two faults of a value's text, each of which has its cause, are the same: so what `read_value` tells is the only one.
pub fn one_fault()
    ensures { OneFault }
{}

/// Where a value of the shape stands, no fault has a cause.
pub fn no_fault()
    ensures { NoFault }
{}
