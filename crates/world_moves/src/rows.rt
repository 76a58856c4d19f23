//! What the server of a world accepts is what its caller asked, as laws over every list of moves.

ghost use Rattle.world_moves.specs.Rows.{AllAcceptsAreRowsCalls, AllRowsAreAccepted};

use ndr_laws::{one_message, written_is_stub};

/// Each call of the caller that has a number stands in the journal under it, accepted as the caller asked it: with that
/// operation, the octets of that message and of no other, and its handles.
pub fn rows_are_accepted()
    ensures { AllRowsAreAccepted }
{
    one_message();
    written_is_stub();
}

/// Each call that a legal journal has accepted is the call of one row, and asks what that row does.
pub fn each_accept_is_a_rows_call()
    ensures { AllAcceptsAreRowsCalls }
{
    one_message();
    written_is_stub();
}
