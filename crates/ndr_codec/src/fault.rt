//! Why a stub has no message.
ghost use Rattle.std.specs.Prelude.{◌≡◌};
ghost use Rattle.ndr_codec.specs.Faults.{of_error};

use ndr_model::NdrFault;
use ndr_pointers::ReadError;

pub(crate) fn unread(error: ReadError) -> NdrFault
    ensures { result ≡ of_error error }
{
    match error {
        ReadError::Memory => NdrFault::Memory,
        ReadError::Departs(departure) => NdrFault::of(departure),
    }
}
