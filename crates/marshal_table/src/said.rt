//! What attributes say of the declarators behind them.

use ndr_value::Count;

/// What a list of attributes gives to the arrays and unions behind it.
#[derive(Clone, Copy, Debug, PartialEq, Eq)]
pub struct Terms {
    /// The number of elements that a conformant array may have.
    pub most: Option<Count>,
    /// How many elements travel.
    pub travel: Option<Count>,
    /// The value that selects a union's arm.
    pub switch: Option<Count>,
}
