//! What holds of reading with other numbers of levels.
ghost use Rattle.ndr_faults.specs.Fuel.{FuelSuffices};

/// Whatever the octets, more levels read the same message of an operation of a table, or depart alike.
pub fn fuel_suffices()
    ensures { FuelSuffices }
{}
