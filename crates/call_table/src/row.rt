//! One call.
ghost use Rattle.std.specs.Prelude.{◌≡◌, ◌≤◌, filter, length};
ghost use Rattle.handle_model.specs.Slots.{opens};
ghost use Rattle.call_table.specs.Rows.{stays, owed_by};

use handle_model::{Slot, count_opens};
use std::marker::Model;

/// The slots of a call, at most four. They stand in the value itself, which takes no memory.
#[derive(Drop)]
pub struct CallSlots {
    slots: [Slot; 4],
    count: usize,
}

impl Model for CallSlots {
    ghost use Rattle.std.specs.Prelude.{List, ◌≤◌, take};
    ghost use Rattle.handle_model.specs.declared.entry.Slot.{Slot};

    ghost Value = { List Slot };

    ghost view = { λ s. take s.count s.slots };

    ghost invariant = { λ s. s.count ≤ 4 };
}

impl CallSlots {
    /// Equal slots.
    pub fn of(slots: &[Slot]) -> CallSlots
        requires { length slots.now ≤ 4 }
        ensures { result ≡ slots.now }
    {
        let mut all = [Slot::Opens { kind: 0, serial: 0 }; 4];
        let count = slots.len();
        for i in 0..count {
            all[i] = slots[i];
        }
        CallSlots { slots: all, count }
    }

    /// The slots.
    pub fn as_slice(&self) -> &[Slot]
        ensures slots { result.now ≡ self.now }
        ensures few { length result.now ≤ 4 }
    {
        &self.slots[..self.count]
    }

    /// How many of them may issue a handle.
    pub fn openings(&self) -> usize
        ensures count { result ≡ length (filter opens self.now) }
        ensures few { result ≤ 4 }
    {
        count_opens(self.as_slice())
    }
}

/// A call that waits or runs.
#[derive(Drop)]
pub struct Row {
    /// Its number.
    pub call: u32,
    /// The number of its connection.
    pub conn: u32,
    pub slots: CallSlots,
    /// Where its Accept stands among the entries of the group, from 0.
    pub place: u128,
    /// Whether it was taken.
    pub runs: bool,
    /// Whether it was cancelled since.
    pub cancelled: bool,
    /// Whether it was orphaned since.
    pub orphaned: bool,
}

impl Row {
    /// How many entries may still come of it: a Take or Deny, a Cancel, an Orphan and an End.
    pub fn owed(&self) -> usize
        ensures count { result ≡ owed_by self.now }
        ensures few { result ≤ 4 }
    {
        if self.runs {
            1 + usize::from(!self.cancelled) + usize::from(!self.orphaned)
        } else {
            4
        }
    }

    /// Whether it is none of the waiting calls of the connection.
    pub fn stays(&self, conn: u32) -> bool
        ensures { result ≡ stays conn self.now }
    {
        self.runs || self.conn != conn
    }
}
