//! Where the rows of calls stand: each in a slab until its call is over, with an index by call number, so that
//! only keys move.
ghost use Rattle.std.specs.Prelude.{◌≡◌, ◌+◌, ◌<◌, ◌≤◌, ◌++◌, ◌∷◌, [], length, slice_index_or, IsTrue, OnOk, OnErr};
ghost use Rattle.std.specs.List.{remove};
ghost use Rattle.call_table.specs.Kept.{Rises};
ghost use Rattle.call_table.specs.Sought.{IsPlace};
ghost use Rattle.call_table.specs.Rows as rows;
ghost use Rattle.call_table.specs.Keys as spec;

use crate::row::Row;
use rpc_base::NoMemory;
use slab::Slab;
use std::alloc::Global;
use std::collections::VecDeque;
use std::marker::Model;

/// The number of a call, and where its row stands.
#[derive(Clone, Copy, Debug, PartialEq, Eq)]
pub struct RowKey {
    pub call: u32,
    pub key: usize,
}

/// The rows of calls by rising number. A row stays where it stands until its call is over.
#[derive(Drop)]
pub struct RowTable {
    rows: Slab<Row>,
    index: VecDeque<RowKey>,
    room: usize,
}

impl Model for RowTable {
    ghost use Rattle.call_table.specs.Keys.{StoredRows, IsStored, rows_in};

    ghost Value = { StoredRows };

    ghost view = { λ t. record { items = rows_in t.rows t.index.items; room = t.room } };

    ghost invariant = { λ t. IsStored t.rows t.index t.room };
}

impl RowTable {
    /// Without rows. It takes no memory.
    pub fn new(alloc: Global) -> RowTable
        ensures { result ≡ record { items = []; room = 0 } }
    {
        RowTable {
            rows: Slab::new(alloc),
            index: VecDeque::new(alloc),
            room: 0,
        }
    }

    /// Makes room for `n` rows more.
    ///
    /// # Errors
    /// `NoMemory` where memory runs out; everything is then as before.
    pub fn reserve(&mut self, n: usize) -> Result<(), NoMemory>
        ensures ok { OnOk result (n ≤ self.new.room) }
        ensures more { self.old.room ≤ self.new.room }
        ensures same { self.new.items ≡ self.old.items }
        ensures err { OnErr result (self.new ≡ self.old) }
    {
        if n <= self.room {
            return Ok(());
        }
        self.rows.reserve(n)?;
        self.index.reserve(n)?;
        self.room = n;
        Ok(())
    }

    /// How many rows there are.
    pub fn len(&self) -> usize
        ensures { result ≡ length self.now.items }
    {
        self.index.len()
    }

    /// The row at a place in the order.
    pub fn row(&self, at: usize) -> &Row
        requires { at < length self.now.items }
        ensures { result.now ≡ slice_index_or self.now.items at result.now }
    {
        match self.rows.get(self.index[at].key) {
            Some(row) => row,
            None => unreachable!(),
        }
    }

    /// How many numbers are below this one.
    pub fn below(&self, call: u32) -> usize
        requires { Rises 0 self.now.items }
        ensures { IsPlace self.now.items call result }
    {
        below(&self.index, call)
    }

    /// A row comes, the last of all.
    pub fn push(&mut self, row: Row)
        requires { 0 < self.old.room }
        ensures items { self.new.items ≡ self.old.items ++ row ∷ [] }
        ensures room { self.new.room + 1 ≡ self.old.room }
    {
        let call = row.call;
        let key = self.rows.insert_reserved(row);
        self.room -= 1;
        self.index.push_back(RowKey { call, key }).unwrap();
    }

    /// The row at a place goes.
    pub fn remove(&mut self, at: usize) -> Row
        requires { at < length self.old.items }
        ensures items { self.new.items ≡ remove self.old.items at }
        ensures value { result ≡ slice_index_or self.old.items at result }
        ensures room { self.new.room ≡ self.old.room }
    {
        let key = self.index.remove(at).unwrap().key;
        self.rows.remove(key)
    }

    /// The call at a place runs.
    pub fn start(&mut self, at: usize)
        requires { at < length self.old.items }
        ensures { self.new ≡ record { items = spec.set_at at rows.taken self.old.items; room = self.old.room } }
    {
        let key = self.index[at].key;
        match self.rows.get_mut(key) {
            Some(row) => row.runs = true,
            None => unreachable!(),
        }
    }

    /// The call at a place is cancelled.
    pub fn cancel(&mut self, at: usize)
        requires { at < length self.old.items }
        ensures { self.new ≡ record { items = spec.set_at at rows.cancelled self.old.items; room = self.old.room } }
    {
        let key = self.index[at].key;
        match self.rows.get_mut(key) {
            Some(row) => row.cancelled = true,
            None => unreachable!(),
        }
    }

    /// The call at a place is orphaned.
    pub fn orphan(&mut self, at: usize)
        requires { at < length self.old.items }
        ensures { self.new ≡ record { items = spec.set_at at rows.orphaned self.old.items; room = self.old.room } }
    {
        let key = self.index[at].key;
        match self.rows.get_mut(key) {
            Some(row) => row.orphaned = true,
            None => unreachable!(),
        }
    }
}

/// How many numbers of an index are below this one. The newest calls mostly have all numbers up to the last, so it
/// looks first where the number stands if those behind it have.
fn below(index: &VecDeque<RowKey>, call: u32) -> usize
    requires { spec.KeysRise 0 index.now.items }
    ensures { spec.IsKeyPlace index.now.items call result }
{
    let at = dense_place(index, call);
    if splits(index, at, call) {
        return at;
    }
    index.partition_point(|key| key.call < call)
}

/// Where the number stands if every one from it to the last is there.
fn dense_place(index: &VecDeque<RowKey>, call: u32) -> usize
    ensures { result ≤ length index.now.items }
{
    match index.back() {
        Some(last) => {
            let behind = (last.call as usize + 1).saturating_sub(call as usize);
            index.len().saturating_sub(behind)
        }
        None => 0,
    }
}

/// Whether the numbers before this place are below the number, and the others aren't, by the two beside it.
fn splits(index: &VecDeque<RowKey>, at: usize, call: u32) -> bool
    requires rise { spec.KeysRise 0 index.now.items }
    requires within { at ≤ length index.now.items }
    ensures { IsTrue result → spec.IsKeyPlace index.now.items call at }
{
    if at > 0 && index[at - 1].call >= call {
        return false;
    }
    if at < index.len() && index[at].call < call {
        return false;
    }
    true
}
