//! What the end of a call does to the table.
ghost use Rattle.std.specs.Prelude.{◌≡◌, ◌+◌, ◌≤◌};
ghost use Rattle.handle_table.specs.Ended as spec;
ghost use Rattle.handle_table.specs.Uses.{item_named};

use crate::known::LiveHandles;
use crate::table::HandleTable;
use handle_model::{DueItem, Outcome, Slot};

impl HandleTable {
    /// Enters the results of a call, one for each of its slots: what they issue is live from now on,
    /// what they keep has its new cookie, and what they close is live no more. It takes no memory.
    pub fn end(&mut self, slots: &[Slot], results: &[Outcome])
        requires { spec.issue_count results.now ≤ self.old.room }
        ensures items { self.new.items ≡ spec.ended self.old.home slots.now results.now self.old.items }
        ensures room { self.old.room ≤ self.new.room + spec.issue_count results.now }
        ensures home { self.new.home ≡ self.old.home }
    {
        match (slots.split_first(), results.split_first()) {
            (Some((slot, slots)), Some((outcome, results))) => {
                self.end(slots, results);
                self.settle(slot, outcome);
            }
            _ => {}
        }
    }

    /// Enters the result at one slot.
    fn settle(&mut self, slot: &Slot, outcome: &Outcome)
        requires { spec.issues_one outcome.now ≤ self.old.room }
        ensures items { self.new.items ≡ spec.after_outcome self.old.home slot.now outcome.now self.old.items }
        ensures room { self.new.room + spec.issues_one outcome.now ≡ self.old.room }
        ensures home { self.new.home ≡ self.old.home }
    {
        match outcome {
            Outcome::Issue { serial, cookie } => {
                self.put(DueItem {
                    serial: *serial,
                    kind: slot.kind(),
                    cookie: *cookie,
                });
            }
            Outcome::Keep(cookie) => self.keep(slot, *cookie),
            Outcome::Close => self.close_named(slot),
            Outcome::Nothing => {}
        }
    }

    #[tactic(auto, using(crate::proofs::Edits::naming))]
    fn keep(&mut self, slot: &Slot, cookie: u64)
        ensures items { self.new.items ≡ spec.kept cookie (item_named self.old.home self.old.items slot.now) self.old.items }
        ensures room { self.new.room ≡ self.old.room }
        ensures home { self.new.home ≡ self.old.home }
    {
        match self.named(slot) {
            Some(item) => self.set(item.serial, cookie),
            None => {}
        }
    }

    #[tactic(auto, using(crate::proofs::Edits::naming))]
    fn close_named(&mut self, slot: &Slot)
        ensures items { self.new.items ≡ spec.closed (item_named self.old.home self.old.items slot.now) self.old.items }
        ensures room { self.new.room ≡ self.old.room }
        ensures home { self.new.home ≡ self.old.home }
    {
        match self.named(slot) {
            Some(item) => self.close(item.serial),
            None => {}
        }
    }
}
