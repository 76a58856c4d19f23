//! Numbers in order, in a ring: of those that come or go the shorter side moves.
ghost use Rattle.std.specs.Prelude.{◌≡◌, ℕ, ◌+◌, ◌<◌, ◌≤◌, [], length, IsTrue, OnOk, OnErr};
ghost use Rattle.std.specs.List.Sorted.{IsNonDecreasing};
ghost use Rattle.call_table.specs.Sorted as spec;

use rpc_base::NoMemory;
use std::alloc::Global;
use std::collections::VecDeque;
use std::marker::Model;

/// Numbers in order, each as often as it was put in.
#[derive(Drop)]
pub struct SortedKeys {
    keys: VecDeque<u128>,
    room: usize,
}

impl Model for SortedKeys {
    ghost use Rattle.call_table.specs.Sorted.{OrderedKeys, IsSorted};

    ghost Value = { OrderedKeys };

    ghost view = { λ s. record { keys = s.keys.items; room = s.room } };

    ghost invariant = { λ s. IsSorted s.keys s.room };
}

impl SortedKeys {
    /// Without keys. It takes no memory.
    pub fn new(alloc: Global) -> SortedKeys
        ensures { result ≡ record { keys = []; room = 0 } }
    {
        SortedKeys {
            keys: VecDeque::new(alloc),
            room: 0,
        }
    }

    /// Makes room for `n` keys more.
    ///
    /// # Errors
    /// `NoMemory` where memory runs out; everything is then as before.
    pub fn reserve(&mut self, n: usize) -> Result<(), NoMemory>
        ensures ok { OnOk result (n ≤ self.new.room) }
        ensures more { self.old.room ≤ self.new.room }
        ensures same { self.new.keys ≡ self.old.keys }
        ensures err { OnErr result (self.new ≡ self.old) }
    {
        if n <= self.room {
            return Ok(());
        }
        self.keys.reserve(n)?;
        self.room = n;
        Ok(())
    }

    /// A key comes.
    pub fn insert(&mut self, key: u128)
        requires { 0 < self.old.room }
        ensures keys { (n : ℕ) → spec.held n self.new.keys ≡ spec.held n self.old.keys + spec.one n key }
        ensures room { self.new.room + 1 ≡ self.old.room }
    {
        let at = below(&self.keys, key);
        self.keys.insert(at, key).unwrap();
        self.room -= 1;
    }

    /// A key goes, once.
    pub fn remove(&mut self, key: u128)
        requires { 0 < spec.held key self.old.keys }
        ensures keys { (n : ℕ) → spec.held n self.new.keys + spec.one n key ≡ spec.held n self.old.keys }
        ensures room { self.new.room ≡ self.old.room }
    {
        let at = below(&self.keys, key);
        self.keys.remove(at).unwrap();
    }

    /// The least key from this number on.
    pub fn least_from(&self, low: u128) -> Option<u128>
        ensures { spec.IsLeastFrom self.now.keys low result }
    {
        let at = below(&self.keys, low);
        if at == self.keys.len() {
            return None;
        }
        Some(self.keys[at])
    }
}

/// How many keys are below this one. The newest keys mostly have all numbers up to the last, so it looks first where
/// the key stands if those behind it have.
fn below(keys: &VecDeque<u128>, key: u128) -> usize
    requires { IsNonDecreasing keys.now.items }
    ensures { spec.IsKeyIndex keys.now.items key result }
{
    let at = dense_index(keys, key);
    if splits(keys, at, key) {
        return at;
    }
    keys.partition_point(|other| *other < key)
}

/// Where the key stands if every number from it to the last is there.
fn dense_index(keys: &VecDeque<u128>, key: u128) -> usize
    ensures { result ≤ length keys.now.items }
{
    match keys.back() {
        Some(last) if key <= *last => {
            let before = (keys.len() as u128 - 1).saturating_sub(*last - key);
            before as usize
        }
        _ => keys.len(),
    }
}

/// Whether the keys before this place are below the key, and the others aren't, by the two beside it.
fn splits(keys: &VecDeque<u128>, at: usize, key: u128) -> bool
    requires rise { IsNonDecreasing keys.now.items }
    requires within { at ≤ length keys.now.items }
    ensures { IsTrue result → spec.IsKeyIndex keys.now.items key at }
{
    if at > 0 && keys[at - 1] >= key {
        return false;
    }
    if at < keys.len() && keys[at] < key {
        return false;
    }
    true
}
