//! Moves that lead to one world alone, as laws.

ghost use Rattle.world_moves.specs.One.{StillMovesLeadToOne, CallersLeadToOne};

use ndr_laws::{one_message, stub_is_read};

/// In every world a move leads to one world alone, where a connection is opened or lost, a call is started or called off, the
/// caller restarts, or a call is taken, no handle that it names being at fault.
pub fn still_moves_lead_to_one()
    ensures { StillMovesLeadToOne }
{}

/// So does one with which octets come to a caller.
pub fn callers_lead_to_one()
    ensures { CallersLeadToOne }
{
    one_message();
    stub_is_read();
}
