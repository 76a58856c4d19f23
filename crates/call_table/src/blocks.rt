//! Which calls stand in the way of another.
ghost use Rattle.std.specs.Prelude.{◌≡◌};
ghost use Rattle.call_table.specs.Rows as spec;
ghost use Rattle.call_table.specs.Queues.{blocks};

use crate::row::Row;
use handle_model::{Slot, any_clash};

/// Which calls that clash with another stand in its way.
#[derive(Clone, Copy, Debug, PartialEq, Eq)]
pub enum Blockers {
    /// Those that run.
    Running,
    /// Those that wait and have a number below this one.
    WaitingBelow(u32),
}

impl Row {
    /// Whether it is such a call, and clashes with these slots.
    pub fn blocks(&self, kind: Blockers, slots: &[Slot]) -> bool
        ensures { result ≡ blocks kind slots.now self.now }
    {
        match kind {
            Blockers::Running => self.blocks_running(slots),
            Blockers::WaitingBelow(call) => self.blocks_waiting(slots, call),
        }
    }

    fn blocks_running(&self, slots: &[Slot]) -> bool
        ensures { result ≡ spec.blocks_running slots.now self.now }
    {
        self.runs && any_clash(slots, self.slots.as_slice())
    }

    fn blocks_waiting(&self, slots: &[Slot], call: u32) -> bool
        ensures { result ≡ spec.blocks_waiting slots.now call self.now }
    {
        !self.runs && self.call < call && any_clash(slots, self.slots.as_slice())
    }
}
