//! Laws of value texts.
ghost use Rattle.value_text.specs.Fuel.{FuelSuffices};
ghost use Rattle.value_text.specs.Laws.{OneValue};

/// One value of a shape at most stands at the front of a text: so a value that is written is read again as that value.
pub fn one_value()
    ensures { OneValue }
{}

/// Where names, structures, unions, arrays and references nest less than 48 deep up to pointers, as far as pointers
/// lead: no text is answered by want of memory for its depth.
pub fn fuel_suffices()
    ensures { FuelSuffices }
{}
