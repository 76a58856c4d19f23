//! Laws of the definitions.
ghost use Rattle.ndr_model.specs.Laws.{ReadValuesStand, SameIsTested};

/// Values that are read stand in the octets.
pub fn read_values_stand()
    ensures { ReadValuesStand }
{}

/// The test of two shapes tells whether they are the same.
pub fn same_is_tested()
    ensures { SameIsTested }
{}
