//! Where the handles stand: each in a slab while it is live, with an index by serial, so that only serials and
//! keys move. A handle that is closed leaves the slab, and its place in the index stays, so that no other moves.
ghost use Rattle.std.specs.Prelude.{◌≡◌, ◌+◌, ◌<◌, ◌≤◌, ◌++◌, ◌∷◌, ◌↔◌, [], length, filter, true, false, slice_index_or, slice_set, vec_len, vec_capacity, IsTrue, OnOk, OnErr};
ghost use Rattle.std.specs.List.{insert};
ghost use Rattle.handle_table.specs.Cells as spec;

use crate::places::{NO_KEY, Place, are_living, below, grown, held, put_living};
use handle_model::DueItem;
use rpc_base::NoMemory;
use slab::Slab;
use std::alloc::Global;
use std::marker::Model;

/// The handles by rising serial, those that are live and others that were.
#[derive(Drop)]
pub struct SerialIndex {
    handles: Slab<DueItem>,
    places: Vec<Place>,
    room: usize,
}

impl Model for SerialIndex {
    ghost use Rattle.handle_table.specs.Cells.{Stored};
    ghost use Rattle.handle_table.specs.Places.{IsStored, cells_in};

    ghost Value = { Stored };

    ghost view = { λ t. record { cells = cells_in t.handles t.places.items; room = t.room } };

    ghost invariant = { λ t. IsStored t.handles t.places t.room };
}

impl SerialIndex {
    /// Without handles. It takes no memory.
    pub fn new(alloc: Global) -> SerialIndex
        ensures { result ≡ record { cells = []; room = 0 } }
    {
        SerialIndex {
            handles: Slab::new(alloc),
            places: Vec::new(alloc),
            room: 0,
        }
    }

    /// Makes room for `n` handles more.
    ///
    /// # Errors
    /// `NoMemory` where memory runs out; everything is then as before.
    pub fn reserve(&mut self, n: usize) -> Result<(), NoMemory>
        ensures ok { OnOk result (n ≤ self.new.room) }
        ensures more { self.old.room ≤ self.new.room }
        ensures same { self.new.cells ≡ self.old.cells }
        ensures err { OnErr result (self.new ≡ self.old) }
    {
        if n <= self.room {
            return Ok(());
        }
        self.places.reserve(n)?;
        if self.handles.capacity() - self.handles.len() < n {
            self.handles = grown(&self.handles, n)?;
        }
        self.room = n;
        Ok(())
    }

    /// How many cells there are.
    pub fn len(&self) -> usize
        ensures { result ≡ length self.now.cells }
    {
        self.places.len()
    }

    /// How many handles are live.
    pub fn live(&self) -> usize
        ensures { result ≡ length (spec.living self.now.cells) }
    {
        self.handles.len()
    }

    /// How many serials are below this one.
    pub fn below(&self, serial: u32) -> usize
        requires { spec.Climb 0 self.now.cells }
        ensures { spec.IsPlace self.now.cells serial result }
    {
        below(self.places.as_slice(), serial)
    }

    /// The serial at a place.
    pub fn serial(&self, at: usize) -> u32
        requires { at < length self.now.cells }
        ensures { (c : spec.Cell) → (slice_index_or self.now.cells at c).item.serial ≡ result }
    {
        self.places[at].serial
    }

    /// The handle at a place, where it is live.
    pub fn item(&self, at: usize) -> Option<DueItem>
        requires { at < length self.now.cells }
        ensures { (c : spec.Cell) → result ≡ spec.item_in (slice_index_or self.now.cells at c) }
    {
        held(&self.handles, self.places[at])
    }

    /// A handle comes, at this place.
    pub fn insert(&mut self, at: usize, item: DueItem)
        requires within { at ≤ length self.old.cells }
        requires room { 0 < self.old.room }
        ensures cells { self.new.cells ≡ insert self.old.cells at (spec.live_cell item) }
        ensures room { self.new.room + 1 ≡ self.old.room }
    {
        self.room -= 1;
        let key = self.handles.insert_reserved(item) as u32;
        let serial = item.serial;
        self.places.insert(at, Place { serial, key }).unwrap();
    }

    /// A handle comes, the last of all.
    pub fn push(&mut self, item: DueItem)
        requires { 0 < self.old.room }
        ensures cells { self.new.cells ≡ self.old.cells ++ spec.live_cell item ∷ [] }
        ensures room { self.new.room + 1 ≡ self.old.room }
    {
        self.insert(self.len(), item);
    }

    /// A handle that isn't live comes back, at its place.
    pub fn fill(&mut self, at: usize, item: DueItem)
        requires there { spec.IsAt self.old.cells item.serial at }
        requires dead { spec.IsLiveAt self.old.cells at false }
        requires room { 0 < self.old.room }
        ensures cells { self.new.cells ≡ slice_set self.old.cells at (spec.live_cell item) }
        ensures room { self.new.room + 1 ≡ self.old.room }
    {
        self.room -= 1;
        let key = self.handles.insert_reserved(item) as u32;
        let serial = item.serial;
        self.places[at] = Place { serial, key };
    }

    /// A live handle is this from now on, with the same serial.
    pub fn set(&mut self, at: usize, item: DueItem)
        requires there { spec.IsAt self.old.cells item.serial at }
        requires live { spec.IsLiveAt self.old.cells at true }
        ensures { self.new ≡ record { cells = slice_set self.old.cells at (spec.live_cell item); room = self.old.room } }
    {
        let key = self.places[at].key;
        match self.handles.get_mut(key as usize) {
            Some(kept) => *kept = item,
            None => unreachable!(),
        }
    }

    /// A live handle is live no more: it leaves the slab, and its place stays.
    pub fn close(&mut self, at: usize, serial: u32)
        requires there { spec.IsAt self.old.cells serial at }
        requires live { spec.IsLiveAt self.old.cells at true }
        ensures { self.new ≡ record { cells = slice_set self.old.cells at (spec.dead_cell serial); room = self.old.room } }
    {
        let key = self.places[at].key;
        self.places[at] = Place {
            serial,
            key: NO_KEY,
        };
        self.handles.remove(key as usize);
    }

    /// Lets go of the places of handles that aren't live.
    pub fn sweep(&mut self)
        ensures { self.new ≡ record { cells = filter spec.is_live self.old.cells; room = self.old.room } }
    {
        self.places.retain(|place| place.key != NO_KEY);
    }

    /// Whether the live handles are these.
    pub fn are_living(&self, items: &[DueItem]) -> bool
        ensures { IsTrue result ↔ (items.now ≡ spec.living self.now.cells) }
    {
        are_living(&self.handles, self.places.as_slice(), items)
    }

    /// Adds the live handles to a list that has a place for each. It takes no memory.
    pub fn put_living(&self, into: &mut Vec<DueItem>)
        requires { vec_len into.old + length (spec.living self.now.cells) ≤ vec_capacity into.old }
        ensures { into.new.items ≡ into.old.items ++ spec.living self.now.cells }
    {
        put_living(&self.handles, self.places.as_slice(), into);
    }
}
