//! The live handles.
ghost use Rattle.std.specs.Prelude.{◌≡◌, ◌↔◌, [], IsTrue, IfOk, OnOk};
ghost use Rattle.std.specs.Map.{values_of};
ghost use Rattle.handle_model.specs.Sound.{IsSoundBase};
ghost use Rattle.handle_table.specs.Handles as spec;
ghost use Rattle.handle_table.specs.Uses as uses;
ghost use Rattle.handle_table.specs.Ended as ended;

use handle_model::{Base, DueItem, Home, Outcome, Slot};
use handle_table::LiveHandles;
use rpc_base::{NoMemory, WireHandle};
use std::alloc::Global;
use std::collections::BTreeMap;
use std::marker::Model;

/// The live handles of a group, by their serials.
#[derive(Drop)]
pub struct HandleMap {
    home: Home,
    items: BTreeMap<u32, DueItem>,
}

impl Model for HandleMap {
    ghost use Rattle.std.specs.Map.{values_of};
    ghost use Rattle.audit_tables.specs.Keyed.{IsTable};
    ghost use Rattle.audit_tables.specs.Handles.{Live, serial_of};

    ghost Value = { Live };

    ghost view = { λ h. record { home = h.home; items = values_of h.items.entries } };

    ghost invariant = { λ h. IsTable serial_of h.items.entries };
}

impl LiveHandles for HandleMap {
    ghost use Rattle.std.specs.Prelude.{◌≡◌};
    ghost use Rattle.handle_table.specs.Uses.{item_named};

    ghost home = { λ h. h.home };

    ghost items = { λ h. h.items };

    fn named(&self, slot: &Slot) -> Option<DueItem>
        ensures { result ≡ item_named self.now.home self.now.items slot.now }
    {
        match slot.named() {
            Some(wire) => self.item_of(&wire),
            None => None,
        }
    }
}

impl HandleMap {
    /// The handles of a base.
    pub(crate) fn of(alloc: Global, home: Home, base: &Base) -> Result<HandleMap, NoMemory>
        requires { IsSoundBase home base.now }
        ensures { IfOk result (λ live. live ≡ record { home = home; items = base.now.handles }) }
    {
        let mut live = HandleMap {
            home,
            items: BTreeMap::new(alloc),
        };
        for item in base.handles.as_slice() {
            live.put(*item)?;
        }
        Ok(live)
    }

    /// Whose they are: the boot word of the server, and the id of the group.
    pub(crate) fn home(&self) -> Home
        ensures { result ≡ self.now.home }
    {
        self.home
    }

    /// The handle of that serial.
    fn item_at(&self, serial: u32) -> Option<DueItem>
        ensures { result ≡ spec.item_at self.now.items serial }
    {
        self.items.get(&serial).copied()
    }

    /// The handle that is known by that wire handle.
    fn item_of(&self, wire: &WireHandle) -> Option<DueItem>
        ensures { result ≡ spec.item_of self.now.home self.now.items wire.now }
    {
        let serial = (wire.id % (1 << 32)) as u32;
        if *wire == self.home.wire(serial) {
            self.item_at(serial)
        } else {
            None
        }
    }

    /// Whether the live handles are these, by rising serial.
    pub(crate) fn lists(&self, items: &[DueItem]) -> bool
        ensures { IsTrue result ↔ (items.now ≡ self.now.items) }
    {
        lists(&self.items, items)
    }

    /// A handle is live from now on, with that kind and cookie.
    fn put(&mut self, item: DueItem) -> Result<(), NoMemory>
        ensures home { self.new.home ≡ self.old.home }
        ensures items { OnOk result (self.new.items ≡ spec.with_item item self.old.items) }
    {
        self.items.insert(item.serial, item)?;
        Ok(())
    }

    /// A live handle has another cookie.
    fn keep(&mut self, slot: &Slot, cookie: u64) -> Result<(), NoMemory>
        ensures home { self.new.home ≡ self.old.home }
        ensures items { OnOk result (self.new.items ≡ ended.kept cookie (uses.item_named self.old.home self.old.items slot.now) self.old.items) }
    {
        let _ = &self.items;
        match self.named(slot) {
            Some(item) => self.put(DueItem { cookie, ..item }),
            None => Ok(()),
        }
    }

    fn close(&mut self, slot: &Slot)
        ensures home { self.new.home ≡ self.old.home }
        ensures items { self.new.items ≡ ended.closed (uses.item_named self.old.home self.old.items slot.now) self.old.items }
    {
        match self.named(slot) {
            Some(item) => {
                self.items.remove(&item.serial);
            }
            None => {}
        }
    }

    /// Enters the result at one slot.
    fn settle(&mut self, slot: &Slot, outcome: &Outcome) -> Result<(), NoMemory>
        ensures home { self.new.home ≡ self.old.home }
        ensures items { OnOk result (self.new.items ≡ ended.after_outcome self.old.home slot.now outcome.now self.old.items) }
    {
        match outcome {
            Outcome::Issue { serial, cookie } => self.put(DueItem {
                serial: *serial,
                kind: slot.kind(),
                cookie: *cookie,
            }),
            Outcome::Keep(cookie) => self.keep(slot, *cookie),
            Outcome::Close => {
                self.close(slot);
                Ok(())
            }
            Outcome::Nothing => Ok(()),
        }
    }

    /// Enters the results of a call, one for each of its slots.
    pub(crate) fn end(&mut self, slots: &[Slot], results: &[Outcome]) -> Result<(), NoMemory>
        ensures home { self.new.home ≡ self.old.home }
        ensures items { OnOk result (self.new.items ≡ ended.ended self.old.home slots.now results.now self.old.items) }
    {
        match (slots.split_first(), results.split_first()) {
            (Some((slot, slots)), Some((outcome, results))) => {
                self.end(slots, results)?;
                self.settle(slot, outcome)
            }
            _ => Ok(()),
        }
    }

    /// No handle is live from now on.
    pub(crate) fn close_all(&mut self)
        ensures home { self.new.home ≡ self.old.home }
        ensures items { self.new.items ≡ [] }
    {
        self.items.clear();
    }
}

fn lists(live: &BTreeMap<u32, DueItem>, items: &[DueItem]) -> bool
    ensures { IsTrue result ↔ (items.now ≡ values_of live.now.entries) }
{
    let mut rest = items;
    for item in live.values() {
        match rest.split_first() {
            Some((first, later)) if first == item => rest = later,
            _ => return false,
        }
    }
    rest.is_empty()
}
