//! Why a stub has no message, and what a call is then answered.
ghost use Rattle.std.specs.Prelude.{◌≡◌};
ghost use Rattle.rpc_base.specs.declared.identifiers.Status.{Status};
ghost use Rattle.ndr_model.specs.Faults.{fault_of, status_of};

use crate::departure::Departure;
use rpc_base::Status;

/// Why a stub has no message: its first departure. Each but `Short`, `Trailing` and `Memory` has the
/// index of the number that departs, after its gap.
#[derive(Clone, Copy, Debug, PartialEq, Eq)]
pub enum NdrFault {
    /// The octets end too early; how many there are.
    Short(usize),
    /// An offset that isn't 0, an actual_count above the maximum, a count that differs from what names
    /// it, or a number outside its range.
    Bound(usize),
    /// A tag without an arm, or one that differs from its switch value.
    Tag(usize),
    /// A full pointer's id that was met with another shape.
    Pointer(usize),
    /// A text without NUL, by its actual_count, or a name outside its enumeration.
    Text(usize),
    /// A pointer whose referent would be the 257th level.
    TooDeep(usize),
    /// More than seven octets behind the last value; how many.
    Trailing(usize),
    /// There is no memory for the message, or none on the machine's stack for how deep its values nest.
    Memory,
}

impl NdrFault {
    /// The fault that a departure is.
    pub fn of(departure: Departure) -> NdrFault
        ensures { result ≡ fault_of departure }
    {
        match departure {
            Departure::Short(count) => NdrFault::Short(count),
            Departure::Bound(index) => NdrFault::Bound(index),
            Departure::Tag(index) => NdrFault::Tag(index),
            Departure::Pointer(index) => NdrFault::Pointer(index),
            Departure::Text(index) => NdrFault::Text(index),
            Departure::TooDeep(index) => NdrFault::TooDeep(index),
            Departure::Trailing(count) => NdrFault::Trailing(count),
        }
    }

    /// The status of the fault that a call ends with.
    pub fn status(&self) -> Status
        ensures { result ≡ status_of self.now }
    {
        match self {
            NdrFault::Bound(_) => Status::NCA_S_FAULT_INVALID_BOUND,
            NdrFault::Tag(_) => Status::NCA_S_FAULT_INVALID_TAG,
            NdrFault::Memory => Status::NCA_S_FAULT_REMOTE_NO_MEMORY,
            _ => Status::NCA_S_PROTO_ERROR,
        }
    }
}
