//! Laws of the moments of a replay.
ghost use Rattle.std.specs.Prelude.{Option};
ghost use Rattle.ndr_table.specs.Tables.{TableForm};
ghost use Rattle.replay_world.specs.Laws.{HoldsAtStart, EventsKeep, LinesKeep};

use crate::Serves;

/// It holds of a server that was booted.
pub fn holds_at_start<D: Serves>()
    ensures { (echo : Option TableForm) → HoldsAtStart (D.service echo) }
{}

/// An event of a connection keeps what holds at each moment.
pub fn events_keep<D: Serves>()
    ensures { (echo : Option TableForm) → EventsKeep (D.service echo) }
{}

/// So do a connection that is opened or lost, a call that is taken, and one that ends.
pub fn lines_keep<D: Serves>()
    ensures { (echo : Option TableForm) → LinesKeep (D.service echo) }
{}
