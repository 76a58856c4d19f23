//! The table.
ghost use Rattle.std.specs.Prelude.{◌≡◌, ◌+◌, ◌<◌, ◌≤◌, ◌^◌, [], length, ◌↔◌, true, false, IsTrue, IfOk, OnOk, OnErr};
ghost use Rattle.handle_model.specs.Bases.{serials_of};
ghost use Rattle.handle_model.specs.Sound.{rise_above, at_most};

use crate::cells::{index_of, item_at, item_of, seek};
use crate::known::LiveHandles;
use crate::serial_index::SerialIndex;
use crate::uses::{cookie, fault};
use handle_model::{Base, DueItem, DueItems, Home, Slot};
use rpc_base::{Items, NoMemory, WireHandle};
use std::alloc::Global;
use std::marker::Model;
use std::mem;

/// The live handles of a group.
#[derive(Drop)]
pub struct HandleTable {
    home: Home,
    index: SerialIndex,
    due: Vec<DueItem>,
    given: Vec<DueItem>,
    room: usize,
    alloc: Global,
}

impl Model for HandleTable {
    ghost use Rattle.handle_table.specs.Handles.{Handles};
    ghost use Rattle.handle_table.specs.Cells.{IsKept, living};

    ghost Value = { Handles };

    ghost view = { λ t. record { home = t.home; items = living t.index.cells; room = t.room } };

    ghost invariant = { λ t. IsKept t.index t.due t.given t.room };
}

impl LiveHandles for HandleTable {
    ghost use Rattle.std.specs.Prelude.{◌≡◌};
    ghost use Rattle.handle_table.specs.Uses.{item_named};

    ghost home = { λ t. t.home };

    ghost items = { λ t. t.items };

    fn named(&self, slot: &Slot) -> Option<DueItem>
        ensures { result ≡ item_named self.now.home self.now.items slot.now }
    {
        match slot.named() {
            Some(wire) => item_of(self.home, &self.index, &wire),
            None => None,
        }
    }
}

impl HandleTable {
    ghost use Rattle.handle_table.specs.Handles as spec;
    ghost use Rattle.handle_table.specs.Uses as uses;

    /// A table of no handles. It takes no memory.
    pub fn new(alloc: Global, boot: u64, group: u32) -> HandleTable
        ensures { result ≡ record { home = record { boot = boot; group = group }; items = []; room = 0 } }
    {
        HandleTable {
            home: Home { boot, group },
            index: SerialIndex::new(alloc),
            due: Vec::new(alloc),
            given: Vec::new(alloc),
            room: 0,
            alloc,
        }
    }

    /// The handles of a base. For no further one there is room.
    ///
    /// # Errors
    /// `NoMemory` where memory runs out.
    #[tactic(auto, using(crate::proofs::Found::beginning))]
    pub fn of(alloc: Global, home: Home, base: &Base) -> Result<HandleTable, NoMemory>
        requires rise { rise_above 0 (serials_of base.now.handles) ≡ true }
        requires counted { at_most base.now.opens (serials_of base.now.handles) ≡ true }
        requires small { base.now.opens < 2 ^ 32 }
        ensures { IfOk result (λ table. table ≡ record { home = home; items = base.now.handles; room = 0 }) }
    {
        let index = index_of(alloc, base.handles.as_slice())?;
        let live = index.live();
        let mut due = Vec::new(alloc);
        due.reserve(live)?;
        let mut given = Vec::new(alloc);
        given.reserve(live)?;
        Ok(HandleTable {
            home,
            index,
            due,
            given,
            room: 0,
            alloc,
        })
    }

    /// Makes room for `n` handles more, and for their places in the lists of `drain`.
    ///
    /// # Errors
    /// `NoMemory` where memory runs out; the table is then as before.
    pub fn reserve(&mut self, n: usize) -> Result<(), NoMemory>
        ensures ok { OnOk result (n ≤ self.new.room) }
        ensures more { self.old.room ≤ self.new.room }
        ensures same { (self.new.home ≡ self.old.home) × (self.new.items ≡ self.old.items) }
        ensures err { OnErr result (self.new ≡ self.old) }
    {
        if n <= self.room {
            return Ok(());
        }
        let Some(all) = self.index.live().checked_add(n) else {
            return Err(NoMemory);
        };
        self.index.reserve(n)?;
        self.due.reserve(all)?;
        self.given.reserve(all)?;
        self.room = n;
        Ok(())
    }

    /// The serial of the handle that travels so. None where it isn't live in this group.
    pub fn find(&self, wire: &WireHandle) -> Option<u32>
        ensures { result ≡ spec.found self.now.home self.now.items wire.now }
    {
        match item_of(self.home, &self.index, wire) {
            Some(item) => Some(item.serial),
            None => None,
        }
    }

    /// The kind and the cookie of a live handle.
    pub fn look(&self, serial: u32) -> Option<(u32, u64)>
        ensures { result ≡ spec.looked self.now.items serial }
    {
        match item_at(&self.index, serial) {
            Some(item) => Some((item.kind, item.cookie)),
            None => None,
        }
    }

    /// Whose they are: the boot word of the server, and the id of the group.
    pub fn home(&self) -> Home
        ensures { result ≡ self.now.home }
    {
        self.home
    }

    /// Whether the live handles are these, by rising serial.
    pub fn lists(&self, items: &[DueItem]) -> bool
        ensures { IsTrue result ↔ (items.now ≡ self.now.items) }
    {
        self.index.are_living(items)
    }

    /// A list of the live handles, by rising serial.
    ///
    /// # Errors
    /// `NoMemory` where memory runs out.
    pub fn copy(&self, alloc: Global) -> Result<DueItems, NoMemory>
        ensures { IfOk result (λ items. items ≡ self.now.items) }
    {
        let mut items = Vec::new(alloc);
        items.reserve(self.index.live())?;
        self.index.put_living(&mut items);
        Ok(Items::from_vec(items))
    }

    /// How many handles are live.
    pub fn live(&self) -> usize
        ensures { result ≡ length self.now.items }
    {
        self.index.live()
    }

    /// A handle is live from now on. The serials may come in any order.
    pub fn issue(&mut self, serial: u32, kind: u32, cookie: u64)
        requires fresh { spec.has self.old.items serial ≡ false }
        requires room { 0 < self.old.room }
        ensures items { self.new.items ≡ spec.with_item (record { serial = serial; kind = kind; cookie = cookie }) self.old.items }
        ensures room { self.new.room + 1 ≡ self.old.room }
        ensures home { self.new.home ≡ self.old.home }
    {
        self.put(DueItem {
            serial,
            kind,
            cookie,
        });
    }

    /// A handle is live no more.
    pub fn close(&mut self, serial: u32)
        requires { spec.has self.old.items serial ≡ true }
        ensures items { self.new.items ≡ spec.without serial self.old.items }
        ensures room { self.new.room ≡ self.old.room }
        ensures home { self.new.home ≡ self.old.home }
    {
        match seek(&self.index, serial) {
            Ok(at) => {
                self.index.close(at, serial);
                self.shed();
            }
            Err(_) => {}
        }
    }

    /// Lets go of the places without a live handle, where they are more than the others.
    fn shed(&mut self)
        ensures { self.new ≡ self.old }
    {
        if self.index.len() / 2 > self.index.live() {
            self.index.sweep();
        }
    }

    /// A live handle has another cookie.
    pub fn set(&mut self, serial: u32, cookie: u64)
        requires { spec.has self.old.items serial ≡ true }
        ensures items { self.new.items ≡ spec.with_cookie serial cookie self.old.items }
        ensures room { self.new.room ≡ self.old.room }
        ensures home { self.new.home ≡ self.old.home }
    {
        match seek(&self.index, serial) {
            Ok(at) => match self.index.item(at) {
                Some(item) => self.index.set(at, DueItem { cookie, ..item }),
                None => {}
            },
            Err(_) => {}
        }
    }

    /// The first slot of a call that names no live handle of its kind, or a handle that an earlier
    /// slot names, where a use of it excludes others.
    pub fn fault(&self, slots: &[Slot]) -> Option<u8>
        requires { length slots.now ≤ 4 }
        ensures { result ≡ uses.fault_at self.now.home self.now.items slots.now }
    {
        fault(self, slots)
    }

    /// The cookie of the live handle that a slot names.
    pub fn cookie(&self, slot: &Slot) -> Option<u64>
        ensures { result ≡ uses.cookie_at self.now.home self.now.items slot.now }
    {
        cookie(self, slot)
    }

    /// The live handles in two lists, as the end of a group wants them: none is live afterwards.
    pub fn drain(&mut self) -> (DueItems, DueItems)
        ensures lists { (result.0 ≡ self.old.items) × (result.1 ≡ self.old.items) }
        ensures table { self.new ≡ record { home = self.old.home; items = []; room = 0 } }
    {
        let index = mem::replace(&mut self.index, SerialIndex::new(self.alloc));
        let mut due = mem::replace(&mut self.due, Vec::new(self.alloc));
        let mut given = mem::replace(&mut self.given, Vec::new(self.alloc));
        self.room = 0;
        index.put_living(&mut due);
        index.put_living(&mut given);
        (Items::from_vec(due), Items::from_vec(given))
    }

    /// Puts a handle in its place.
    pub(crate) fn put(&mut self, item: DueItem)
        requires { 0 < self.old.room }
        ensures items { self.new.items ≡ spec.with_item item self.old.items }
        ensures room { self.new.room + 1 ≡ self.old.room }
        ensures home { self.new.home ≡ self.old.home }
    {
        self.room -= 1;
        match seek(&self.index, item.serial) {
            Ok(at) => match self.index.item(at) {
                Some(_) => self.index.set(at, item),
                None => self.index.fill(at, item),
            },
            Err(at) => self.index.insert(at, item),
        }
    }
}
